// Runs the body of every region from every state, sixteen states at a time, each in a lane. What a body does to a
// state's number is held as a shift: a number that is added to it, modulo 4,096, or FAULT. A body is run anew only
// where a variable that its text names changed from the last sixteen states to these; else its shifts serve again.
#![tactic(auto)]

ghost use Rattle.std.specs.Prelude.{◌≡◌, List, ℕ, ◌+◌, ◌*◌, ◌<◌, ◌≤◌, length, get_or};
ghost use Rattle.syntax.specs.Limits.{most_bytes, most_vars};
ghost use Rattle.machine.specs.Limits.{most_regions, most_states, most_after};
ghost use Rattle.syntax.specs.Token.{Lexeme};
ghost use Rattle.syntax.specs.Tree.{Monitor, spell_block};
ghost use Rattle.meaning.specs.Model.{vars, regions, region};
ghost use Rattle.meaning.specs.SixteenBits.{wrapped, share};
ghost use Rattle.evaluator.specs.Coding.{Codes, Covers, lane};
ghost use Rattle.variables.specs.Bounded.{Bounded, NumberOf};
ghost use Rattle.states.specs.Rows.{BodiesAt, Outcomes};
ghost use Rattle.lanes.specs.Promises.{Sixteen, Values, SomeApart};
ghost use Rattle.bodies.specs.Shifts.{unshift, ShiftOf, Stretch, Noted, Ran, Filling};
ghost use Rattle.bodies.specs.Shifts.{Serves, AllServe, PutRows};

use machine::StateNumber;
use variables::Bounds;

// How many numbers there are for shifts.
const SHIFTS: u16 = machine::STATE_END;

// Numbers in sixteen lanes, with what the values of variable k add.
fn with_shares(
    sums: [StateNumber; 16],
    lanes: &[u16; 96],
    k: usize,
    low: u16,
    weight: u16,
) -> [StateNumber; 16]
    requires { k < most_vars }
    ensures { (j : ℕ) → j < 16
        → get_or result j 0 ≡ wrapped (get_or sums j 0 + share wrapped (get_or lanes.now (k * 16 + j) 0) low weight) }
{
    let mut more = [0u16; 16];
    for j in 0..16 {
        let share = variables::share_of(lanes[k * 16 + j], low, weight);
        more[j] = variables::plus(sums[j], share);
    }
    more
}

// The number of the state in each lane.
fn numbers(bounds: Bounds, lanes: &[u16; 96]) -> [StateNumber; 16]
    ensures { (j : ℕ) → j < 16 → NumberOf bounds (lane lanes.now j) (get_or result j 0) }
{
    let mut sums = [0u16; 16];
    for k in 0..syntax::VARIABLES {
        if bounds.count <= k {
            return sums;
        }
        let more = with_shares(sums, lanes, k, bounds.lows[k], bounds.weights[k]);
        sums = more;
    }
    sums
}

// The shift from state s to the state with a number, or FAULT.
fn shift_of(ok: bool, to: StateNumber, s: StateNumber) -> u16
    requires { s < most_states }
    ensures { ShiftOf ok to s result }
{
    if !ok {
        return states::FAULT;
    }
    (to % SHIFTS + SHIFTS - s) % SHIFTS
}

// The shifts of region r from the sixteen states from s on, of a body that was run in their lanes.
fn note(bounds: Bounds, ok: u16, ended: &[u16; 96], s: StateNumber, r: usize, shifts: &mut [u16])
    requires { (s ≤ 4080) × (r < most_regions) × (length shifts.old ≡ 256) }
    ensures { Stretch (r * 16) (Noted bounds ok ended.now s) shifts.old
        shifts.new 16 }
{
    let to = numbers(bounds, ended);
    for j in 0..16 {
        shifts[r * 16 + j] = shift_of(sets::has(ok, j as u32), to[j], s + j as u16);
    }
}

// The same, with the body that begins at a token run from the values of these states.
fn run_from(
    kinds: &[u8],
    values: &[u16],
    bounds: Bounds,
    lanes: [u16; 96],
    at: usize,
    s: StateNumber,
    r: usize,
    shifts: &mut [u16],
)
    requires { (s ≤ 4080) × (r < most_regions) × (length shifts.old ≡ 256) }
    ensures { Stretch (r * 16) (Ran kinds.now values.now bounds lanes at s)
        shifts.old shifts.new 16 }
{
    let lows = bounds.lows;
    let highs = bounds.highs;
    let ran = evaluator::run_body(kinds, values, lows, highs, lanes, at);
    let ended = ran.values;
    note(bounds, ran.ok, &ended, s, r, shifts);
}

// The shifts of every region, those of the bodies that are run anew in place of the last.
fn shifts_from(
    kinds: &[u8],
    values: &[u16],
    bounds: Bounds,
    lanes: [u16; 96],
    ats: [u16; machine::REGIONS],
    named: [u16; machine::REGIONS],
    count: usize,
    changed: Option<u16>,
    s: StateNumber,
    shifts: &mut [u16],
)
    requires { (s ≤ 4080) × (count ≤ most_regions) × (length shifts.old ≡ 256) }
    ensures { (m : Monitor) → Filling m kinds.now values.now bounds ats named count
        → Sixteen (vars m) (Values (vars m) lanes) s
        → AllServe m (λ r. SomeApart (get_or named r 0) changed) shifts.old s
        → (r : ℕ) → r < length (regions m) → Serves (vars m) (region m r) shifts.new r s }
{
    for r in 0..count {
        if lanes::anew(named[r], changed) {
            let at = usize::from(ats[r]);
            run_from(kinds, values, bounds, lanes, at, s, r, shifts);
        }
    }
}

// The number of the state after a body that shifts state s so.
fn shifted(s: StateNumber, shift: u16) -> StateNumber
    requires { s < most_states }
    ensures { result ≡ unshift s shift }
{
    if shift < SHIFTS {
        (s + shift) % SHIFTS
    } else {
        states::FAULT
    }
}

// The outcomes of region r from the sixteen states from s on, by its shifts.
fn put_row(shifts: &[u16], r: usize, s: StateNumber, after: &mut [StateNumber])
    requires { (s ≤ 4080) × (r < most_regions) × (length shifts.now ≡ 256) × (most_after ≤ length after.old) }
    ensures { Stretch (r * most_states + s)
        (λ j x. x ≡ unshift (s + j) (get_or shifts.now (r * 16 + j) 0))
        after.old after.new 16 }
{
    let at = r * machine::STATES + s as usize;
    for j in 0..16 {
        after[at + j] = shifted(s + j as u16, shifts[r * 16 + j]);
    }
}

// The same of every region.
fn put_rows(shifts: &[u16], count: usize, s: StateNumber, after: &mut [StateNumber])
    requires { (s ≤ 4080) × (count ≤ most_regions) × (length shifts.now ≡ 256) × (most_after ≤ length after.old) }
    ensures { PutRows shifts.now count s after.old after.new }
{
    for r in 0..count {
        put_row(shifts, r, s, after);
    }
}

// The outcome of every region's body from every state, at region * STATES + state, whether it may run there or not;
// what stands behind the last state is left free. `ats` has the token at which each body begins, and `named` the
// variables that it names.
pub fn fill_after(
    kinds: &[u8],
    values: &[u16],
    bounds: Bounds,
    ats: [u16; machine::REGIONS],
    named: [u16; machine::REGIONS],
    count: usize,
    after: &mut [StateNumber],
)
    ensures { (m : Monitor) (ls : List Lexeme)
        → Codes (vars m) ls kinds.now values.now → Bounded (vars m) bounds → length ls ≤ most_bytes
        → count ≡ length (regions m) → count ≤ most_regions → BodiesAt m ls ats
        → ((r : ℕ) → r < length (regions m) → Covers (vars m) (spell_block (region m r).body) (get_or named r 0))
        → most_after ≤ length after.old → Outcomes m after.new }
{
    if after.len() < machine::AFTER {
        return;
    }
    if machine::REGIONS < count {
        return;
    }
    let states = bounds.states;
    if machine::STATE_END < states {
        return;
    }
    let mut lanes = lanes::first_lanes(bounds);
    let mut changed = None;
    let mut shifts = [0u16; 256];
    for s in (0..states).step_by(16) {
        shifts_from(
            kinds,
            values,
            bounds,
            lanes,
            ats,
            named,
            count,
            changed,
            s,
            &mut shifts,
        );
        put_rows(&shifts, count, s, after);
        let next = lanes::next(bounds, lanes);
        lanes = next.values;
        changed = Some(next.changed);
    }
}
