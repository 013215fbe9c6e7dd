// The values of sixteen consecutive states of a file, each state in a lane: that of variable v in lane j stands at
// v * 16 + j, with 128 added. They are made from the states' numbers, or from the sixteen states before by adding 16,
// the last variable first, with a carry in each lane; the loops over lanes have no branches.
#![tactic(auto)]

ghost use Rattle.std.specs.Prelude.{◌≡◌, false, List, ◌++◌, ℕ, ◌+◌, ◌*◌, ◌<◌, ◌≤◌, drop, length, get_or, ℤ};
ghost use Rattle.sets.specs.Set.{member};
ghost use Rattle.syntax.specs.Limits.{most_vars};
ghost use Rattle.syntax.specs.Token.{Lexeme};
ghost use Rattle.syntax.specs.Tree.{Var, Cond, spell_cond};
ghost use Rattle.meaning.specs.Value.{truth};
ghost use Rattle.meaning.specs.Held.{Biased};
ghost use Rattle.evaluator.specs.Coding.{Codes, EndsCond};
ghost use Rattle.variables.specs.Bounded.{Bounded};
ghost use Rattle.lanes.specs.Promises.{Put, Sixteen, Values, SomeApart};
ghost use Rattle.lanes.specs.Adding.{Share, Settled, Carried, Ready, Raised};

use variables::Bounds;

// Values, and the variables whose values differ from the ones before, as a set.
#[derive(Clone, Copy)]
pub struct Lanes {
    pub values: [u16; 96],
    pub changed: u16,
}

// A state's values at a place and every sixteenth behind it.
fn put_values(all: &mut [u16], at: usize, values: [u16; syntax::VARIABLES])
    requires { at + 80 < length all.old }
    ensures { Put all.old at values all.new }
{
    for k in 0..syntax::VARIABLES {
        all[at + k * 16] = values[k];
    }
}

// The values of the first sixteen states.
pub fn first_lanes(bounds: Bounds) -> [u16; 96]
    ensures { (vs : List Var) → Bounded vs bounds → Sixteen vs (Values vs result) 0 }
{
    let mut lanes = [0u16; 96];
    for s in 0..16 {
        let values = variables::values_of(bounds, s);
        put_values(&mut lanes, usize::from(s), values);
    }
    lanes
}

// How many variables there are, at most six for any bounds.
fn few(count: usize) -> usize
    ensures { (result ≤ most_vars) × (count ≤ most_vars → result ≡ count) }
{
    if count <= syntax::VARIABLES { count } else { 0 }
}

// What is added to a variable of a size, and what to those before it.
#[derive(Clone, Copy)]
struct Part {
    here: u16,
    rest: u16,
}

// By a division only where there is something to divide.
fn share(rest: u16, size: u16) -> Part
    requires { 0 < size }
    ensures { Share rest size result }
{
    if rest < size {
        Part {
            here: rest,
            rest: 0,
        }
    } else {
        Part {
            here: rest % size,
            rest: rest / size,
        }
    }
}

// A value to which something was added, brought back into its range.
fn settle(sum: u16, high: u16, size: u16) -> u16
    requires { size ≤ high + 1 }
    ensures { Settled sum high size result }
{
    if high < sum { sum - size } else { sum }
}

// And what it carries over to the variable before.
fn carry_of(sum: u16, high: u16) -> u16
    ensures { Carried sum high result }
{
    u16::from(high < sum)
}

// The place of a variable's values.
fn row_at(k: usize) -> usize
    requires { k < most_vars }
    ensures { result ≡ k * 16 }
{
    k * 16
}

// Adds a number and what is carried to the sixteen values at a place; whether anything is carried over from there.
fn raise(lanes: &mut [u16], at: usize, carry: &mut [u16], add: u16, high: u16, size: u16) -> bool
    requires { Ready lanes.old at carry.old add high size }
    ensures { Raised at add high size lanes.old carry.old lanes.new
        carry.new result }
{
    let mut any = false;
    for j in 0..16 {
        let sum = lanes[at + j] % 4096 + add + carry[j];
        lanes[at + j] = settle(sum, high, size);
        carry[j] = carry_of(sum, high);
        any |= high < sum;
    }
    any
}

// The values of the sixteen states behind those of some values.
pub fn next(bounds: Bounds, lanes: [u16; 96]) -> Lanes
    ensures sixteen { (vs : List Var) (from : ℕ) → Bounded vs bounds → Sixteen vs (Values vs lanes) from
        → Sixteen vs (Values vs result.values) (from + 16) }
    ensures unchanged { (k j : ℕ) → k < most_vars → j < 16 → member result.changed k ≡ false
        → get_or result.values (k * 16 + j) 0 ≡ get_or lanes (k * 16 + j) 0 }
{
    let mut values = lanes;
    let mut changed: u16 = 0;
    let mut carry = [0u16; 16];
    let mut any = false;
    let mut rest: u16 = 16;
    let mut k = few(bounds.count);
    // Stays (no plainer): the turns end where nothing is left to add, so a `for` over the variables from the last one
    // on would break off in the middle.
    while (0 < k) & ((0 < rest) | any) {
        k -= 1;
        let high = bounds.highs[k] % 4096;
        let size = variables::size_of(bounds.lows[k], high);
        let part = share(rest, size);
        rest = part.rest;
        if (0 < part.here) | any {
            let at = row_at(k);
            any = raise(&mut values, at, &mut carry, part.here, high, size);
            changed = sets::with(changed, k as u32);
        }
    }
    Lanes { values, changed }
}

// Whether what a text says is to be worked out anew: for the first sixteen states, for which it is not said what changed,
// and where a variable that it names is among those that changed.
pub fn anew(named: u16, changed: Option<u16>) -> bool
    ensures { result ≡ false → SomeApart named changed }
{
    match changed {
        Some(changed) => sets::both(named, changed) != 0,
        None => true,
    }
}

// Whether the condition that begins at a token holds at some values.
pub fn holds_at(kinds: &[u8], values: &[u16], vars: [u16; syntax::VARIABLES], at: usize) -> bool
    ensures { (vs : List Var) (as' : List ℤ) (ls us : List Lexeme) (c : Cond)
        → Codes vs ls kinds.now values.now → Biased vs as' vars
        → drop at ls ≡ spell_cond c ++ us → EndsCond us → length ls < 8193
        → result ≡ truth c vs as' }
{
    let mut lanes = [0u16; 96];
    put_values(&mut lanes, 0, vars);
    sets::has(evaluator::holds(kinds, values, &lanes, at), 0)
}
