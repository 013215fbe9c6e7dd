// A state by its number, with what holds there and what each region's body does from it; and the number of the state with
// some values.
#![tactic(auto)]

ghost use Rattle.std.specs.Prelude.{◌≡◌, List, ℕ, ◌+◌, ◌*◌, ◌<◌, get_or};
ghost use Rattle.syntax.specs.Tree.{Monitor, Var};
ghost use Rattle.syntax.specs.Limits.{most_vars};
ghost use Rattle.machine.specs.Limits.{most_regions, most_states};
ghost use Rattle.sets.specs.Set.{member};
ghost use Rattle.meaning.specs.Model.{vars, regions, guards};
ghost use Rattle.variables.specs.Bounded.{Bounded};
ghost use Rattle.lookup.specs.Looked.{Looked, StateIs, NoState, NumberIs, NoNumber};
ghost use Rattle.lookup.specs.Slices.{move_by, move_in, Within, slot_of, Trimmed};

use answers::Answer;
use layout::Layout;
use machine::StateNumber;
use std::array;
use variables::Bounds;

// The verdict of a file, and a state of it: whether there is one with the number, whether the kept condition holds there,
// the values of its variables, each with 128 added, the guards that hold there, and for each region the state after its
// body.
// Stays (interface): C reads `known` beside the values, and what a body does as a number in `after`.
#[repr(C)]
#[derive(Clone, Copy)]
pub struct State {
    pub answer: Answer,
    pub known: bool,
    pub kept: bool,
    pub vars: usize,
    pub values: [u16; syntax::VARIABLES],
    pub holds: u16,
    pub after: [u16; machine::REGIONS],
}

// The verdict of a file, and the number of a state of it, where the values are a state's.
// Stays (interface): C reads `known` beside the number.
#[repr(C)]
#[derive(Clone, Copy)]
pub struct Numbered {
    pub answer: Answer,
    pub known: bool,
    pub number: usize,
}

// In the place of a state after a body: it faults; it does not run.
pub const FAULTS: u16 = 65534;

pub const NEVER: u16 = 65535;

// A file that is refused, or a number that is no state's.
pub fn no_state(answer: Answer) -> State
    ensures { (result.answer ≡ answer) × NoState result }
{
    State {
        answer,
        known: false,
        kept: false,
        vars: 0,
        values: [0; syntax::VARIABLES],
        holds: 0,
        after: [0; machine::REGIONS],
    }
}

// What a body does whose outcome is held so, by whether the kept condition and its guard hold.
fn move_by(kept: bool, holds: u16, guard: u8, to: StateNumber) -> u16
    ensures { result ≡ move_by kept (member holds guard) to }
{
    if !kept {
        return NEVER;
    }
    if !sets::has(holds, u32::from(guard)) {
        return NEVER;
    }
    if to == machine::STATE_END { FAULTS } else { to }
}

// What is held of a state: whether it is kept, the guards that hold, and with the layout the states after bodies.
#[derive(Clone, Copy)]
struct Here<'a> {
    layout: &'a Layout,
    after: &'a [StateNumber; machine::AFTER],
    number: StateNumber,
    kept: bool,
    holds: u16,
    ghost small: { number < most_states },
}

impl Here<'_> {
    // What the body of the region with a number does; behind the regions nothing runs.
    fn move_of(self, r: usize) -> u16
        requires { r < most_regions }
        ensures { result ≡ move_in self.entry.layout.now.regions self.entry.layout.now.guard_of
            self.entry.kept self.entry.holds self.entry.after.now self.entry.number r }
    {
        if self.layout.regions <= r {
            return NEVER;
        }
        move_by(
            self.kept,
            self.holds,
            self.layout.guard_of[r],
            self.after[r * machine::STATES + usize::from(self.number)],
        )
    }

    // The same of every region.
    fn moves(self) -> [u16; machine::REGIONS]
        ensures { (r : ℕ) → r < most_regions
            → get_or result r 0 ≡ move_in self.entry.layout.now.regions self.entry.layout.now.guard_of
            self.entry.kept self.entry.holds self.entry.after.now self.entry.number r }
    {
        array::from_fn(|r| self.move_of(r))
    }
}

// The state with a number, from what was loaded of a file.
pub fn state_of(
    bounds: Bounds,
    layout: Layout,
    answer: Answer,
    kept: &[u8; machine::STATES],
    holds: &[u16; machine::STATES],
    after: &[StateNumber; machine::AFTER],
    number: usize,
) -> State
    ensures verdict { result.answer ≡ answer }
    ensures state_is { (m : Monitor) → Looked m bounds layout kept.now holds.now after.now
        → StateIs m number result }
{
    if number >= machine::STATES || number >= usize::from(bounds.states) {
        return no_state(answer);
    }
    let s = number as StateNumber;
    let is_kept = kept[number] == 1;
    let holding = sets::below(holds[number], layout.guards);
    let here = Here {
        layout: &layout,
        after,
        number: s,
        kept: is_kept,
        holds: holding,
    };
    State {
        answer,
        known: true,
        kept: is_kept,
        vars: bounds.count,
        values: variables::values_of(bounds, s),
        holds: holding,
        after: here.moves(),
    }
}

// Is each value in its variable's range?
fn within(bounds: Bounds, values: [u16; syntax::VARIABLES]) -> bool
    ensures { (vs : List Var) → Bounded vs bounds → Within vs values result }
{
    for k in 0..bounds.count.min(syntax::VARIABLES) {
        if values[k] < bounds.lows[k] {
            return false;
        }
        if bounds.highs[k] < values[k] {
            return false;
        }
    }
    true
}

// The first n values, and 128 behind them, as slots without a variable hold it.
fn slot(values: [u16; syntax::VARIABLES], n: usize, k: usize) -> u16
    requires { k < most_vars }
    ensures { result ≡ slot_of n values k }
{
    if k < n { values[k] } else { 128 }
}

fn trimmed(values: [u16; syntax::VARIABLES], n: usize) -> [u16; syntax::VARIABLES]
    ensures { Trimmed n values result }
{
    array::from_fn(|k| slot(values, n, k))
}

// A file that is refused, or values that are no state's.
pub fn no_number(answer: Answer) -> Numbered
    ensures { (result.answer ≡ answer) × NoNumber result }
{
    Numbered {
        answer,
        known: false,
        number: 0,
    }
}

// The number of the state with some values, each with 128 added.
pub fn number_in(bounds: Bounds, answer: Answer, values: [u16; syntax::VARIABLES]) -> Numbered
    ensures verdict { result.answer ≡ answer }
    ensures number_is { (vs : List Var) → Bounded vs bounds → NumberIs vs values result }
{
    if !within(bounds, values) {
        return no_number(answer);
    }
    let held = trimmed(values, bounds.count);
    Numbered {
        answer,
        known: true,
        number: usize::from(variables::number_of(bounds, held)),
    }
}
