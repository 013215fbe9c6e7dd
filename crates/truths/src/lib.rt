// The truth of conditions at every state of a file, sixteen states at a time, into lent slices. A condition is evaluated
// anew only where a variable that it names has changed since the last sixteen states.
#![tactic(auto)]

ghost use Rattle.std.specs.Prelude.{◌≡◌, List, ℕ, ◌+◌, ◌<◌, ◌≤◌, length};
ghost use Rattle.machine.specs.Limits.{most_regions, most_states};
ghost use Rattle.sets.specs.Set.{member};
ghost use Rattle.syntax.specs.Tree.{Var, Cond};
ghost use Rattle.logic.specs.Tests.{bit};
ghost use Rattle.meaning.specs.Value.{truth};
ghost use Rattle.lanes.specs.Promises.{Sixteen, Values};
ghost use Rattle.states.specs.Rows.{TruthRow, TruthSets};
ghost use Rattle.truths.specs.Carried.{Condition, Conditions, Truth, Truths, Carried, CarriedAll};
ghost use Rattle.truths.specs.Carried.{Spread, PutSets, PutBits};

use machine::StateNumber;
use variables::Bounds;

// Stays (no plainer): layouts and mentions have these arrays, which an array of structs would be put together from.
// Conditions, at most sixteen: the token at which each begins, the variables that it names, and how many there are.
#[derive(Clone, Copy)]
pub struct Texts {
    pub ats: [u16; machine::REGIONS],
    pub named: [u16; machine::REGIONS],
    pub count: usize,
}

// A set with g in it or not.
fn put(set: u16, g: u32, holds: bool) -> u16
    requires { g < 16 }
    ensures { (member result g ≡ holds) × ((u : ℕ) → (u ≡ g → ⊥) → member result u ≡ member set u) }
{
    if holds {
        sets::with(set, g)
    } else {
        sets::without(set, g)
    }
}

// Condition g holds in the lanes of a set: each lane's set has it, or not.
fn spread(known: u16, g: u32, sets: &mut [u16])
    requires { (g < 16) × (length sets.old ≡ 16) }
    ensures { Spread known g sets.old sets.new }
{
    for j in 0..16 {
        sets[j] = put(sets[j], g, sets::has(known, j as u32));
    }
}

// The truth of some conditions at sixteen states, in each lane's set: those that are not evaluated anew are as they were.
fn truths_from(
    kinds: &[u8],
    values: &[u16],
    lanes: &[u16; 96],
    texts: Texts,
    changed: Option<u16>,
    sets: &mut [u16],
)
    requires { (texts.count ≤ most_regions) × (length sets.old ≡ 16) }
    ensures { (vs : List Var) (cs : List Cond) (bounds : Bounds) (from : ℕ)
        → Conditions vs cs kinds.now values.now bounds texts.ats texts.named texts.count
        → Sixteen vs (Values vs lanes.now) from
        → CarriedAll vs cs texts.named changed sets.old from
        → Sixteen vs (Truths vs cs sets.new) from }
{
    for g in 0..texts.count {
        if lanes::anew(texts.named[g], changed) {
            let at = usize::from(texts.ats[g]);
            spread(evaluator::holds(kinds, values, lanes, at), g as u32, sets);
        }
    }
}

// Sixteen sets into a slice.
// Stays (no plainer): one function for this and `put_bits` would write an array of a type parameter, which `put_bits` would
// have to make first.
fn put_sets(sets: &[u16], from: StateNumber, row: &mut [u16])
    requires { (length sets.now ≡ 16) × (from + 16 ≤ length row.old) }
    ensures { PutSets sets.now from row.old row.new }
{
    for j in 0..16 {
        row[from as usize + j] = sets[j];
    }
}

// A truth as a number.
fn bit_of(b: bool) -> u8
    ensures { result ≡ bit b }
{
    if b { 1 } else { 0 }
}

// The lanes of a set into a slice, 1 and 0.
fn put_bits(known: u16, from: StateNumber, row: &mut [u8])
    requires { from + 16 ≤ length row.old }
    ensures { PutBits known from row.old row.new }
{
    for j in 0..16 {
        row[from as usize + j] = bit_of(sets::has(known, j as u32));
    }
}

// The truth of the condition that begins at a token, at sixteen states: as it was known, or evaluated anew.
fn truth_from(
    kinds: &[u8],
    values: &[u16],
    lanes: &[u16; 96],
    at: usize,
    named: u16,
    changed: Option<u16>,
    known: u16,
) -> u16
    ensures { (vs : List Var) (c : Cond) (bounds : Bounds) (from : ℕ)
        → Condition vs c kinds.now values.now bounds at named
        → Sixteen vs (Values vs lanes.now) from → Carried vs c named changed (member known) from
        → Sixteen vs (Truth vs c result) from }
{
    if lanes::anew(named, changed) {
        return evaluator::holds(kinds, values, lanes, at);
    }
    known
}

// Those of some conditions that hold, as a set, at every state. Where there are none, nothing is written.
pub fn fill_sets(kinds: &[u8], values: &[u16], bounds: Bounds, texts: Texts, row: &mut [u16])
    ensures { (vs : List Var) (cs : List Cond)
        → Conditions vs cs kinds.now values.now bounds texts.ats texts.named texts.count
        → (1 ≤ texts.count → most_states ≤ length row.old) → TruthSets vs cs row.new }
{
    if texts.count == 0 {
        return;
    }
    if machine::REGIONS < texts.count {
        return;
    }
    let states = bounds.states;
    if machine::STATE_END < states {
        return;
    }
    if row.len() < machine::STATES {
        return;
    }
    let mut lanes = lanes::first_lanes(bounds);
    let mut changed = None;
    let mut sets = [0u16; 16];
    for s in (0..states).step_by(16) {
        truths_from(kinds, values, &lanes, texts, changed, &mut sets);
        put_sets(&sets, s, row);
        let more = lanes::next(bounds, lanes);
        lanes = more.values;
        changed = Some(more.changed);
    }
}

// The truth of the condition that begins at a token, 1 or 0, at every state.
// Stays (no plainer): this and `fill_sets` share the turns over the states alone; what they evaluate, carry over and write
// differs, so one function for both would take a trait with these for its methods.
pub fn fill_row(kinds: &[u8], values: &[u16], bounds: Bounds, at: usize, named: u16, row: &mut [u8])
    ensures { (vs : List Var) (c : Cond)
        → Condition vs c kinds.now values.now bounds at named
        → most_states ≤ length row.old → TruthRow vs (truth c vs) row.new }
{
    let states = bounds.states;
    if machine::STATE_END < states {
        return;
    }
    if row.len() < machine::STATES {
        return;
    }
    let mut lanes = lanes::first_lanes(bounds);
    let mut changed = None;
    let mut known: u16 = 0;
    for s in (0..states).step_by(16) {
        known = truth_from(kinds, values, &lanes, at, named, changed, known);
        put_bits(known, s, row);
        let more = lanes::next(bounds, lanes);
        lanes = more.values;
        changed = Some(more.changed);
    }
}
