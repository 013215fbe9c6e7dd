// Refusal 9 by look-up: the lowest region, then the lowest state from which the outcome of its body is a fault or not
// kept.
#![tactic(auto)]

ghost use Rattle.std.specs.Prelude.{◌≡◌, ◌&&◌, ◌≤◌, length, get_or, eqb};
ghost use Rattle.machine.specs.Limits.{most_regions, most_states, most_after};
ghost use Rattle.syntax.specs.Tree.{Monitor};
ghost use Rattle.meaning.specs.Model.{vars, regions};
ghost use Rattle.meaning.specs.Decide.Check.{broken};
ghost use Rattle.variables.specs.Bounded.{Bounded};
ghost use Rattle.sets.specs.Set.{member};
ghost use Rattle.states.specs.Rows.{HoldsAll, KeptAll, GuardNumbers, Outcomes};
ghost use Rattle.breaking.specs.Broken.{BrokenAs, fails_by, breaks_by, Lowest};

use machine::StateNumber;
use variables::Bounds;

// Is an outcome a fault, or a state at which the kept condition is false?
fn fails(kept: &[u8], to: StateNumber) -> bool
    ensures { result ≡ fails_by kept.now to }
{
    to == states::FAULT || states::at(kept, to, 0) != 1
}

// Does a region break at a state, by what is held of that state (`here`, `held`) and the outcome of its body?
fn breaks_at(kept: &[u8], here: u8, held: u16, guard: u8, to: StateNumber) -> bool
    ensures { result ≡ (fails_by kept.now to && (eqb here 1 && member held guard)) }
{
    here == 1 && sets::has(held, u32::from(guard)) && fails(kept, to)
}

// The lowest state at which a region breaks, by the outcomes of its body.
fn first_in_row(
    row: &[StateNumber],
    states: StateNumber,
    guard: u8,
    kept: &[u8],
    holds: &[u16],
) -> Option<StateNumber>
    requires { (states ≤ length row.now) × (states ≤ length kept.now) × (states ≤ length holds.now) }
    ensures { Lowest
        (λ s. breaks_by kept.now holds.now guard s (get_or row.now s 0)) states result }
{
    for s in 0..states {
        let at = usize::from(s);
        if breaks_at(kept, kept[at], holds[at], guard, row[at]) {
            return Some(s);
        }
    }
    None
}

// The lowest region, and then the lowest state, from which the outcome of the body is a fault or not kept (9).
pub fn first_broken(
    bounds: Bounds,
    guard_of: [u8; machine::REGIONS],
    count: usize,
    kept: &[u8],
    holds: &[u16],
    after: &[StateNumber],
) -> Option<(usize, StateNumber)>
    ensures { (m : Monitor) → Bounded (vars m) bounds → count ≡ length (regions m) → count ≤ most_regions
        → GuardNumbers m guard_of → most_states ≤ length kept.now → most_states ≤ length holds.now
        → most_after ≤ length after.now → KeptAll m kept.now → HoldsAll m holds.now
        → Outcomes m after.now → BrokenAs result (broken m) }
{
    if kept.len() < machine::STATES {
        return None;
    }
    if holds.len() < machine::STATES {
        return None;
    }
    if after.len() < machine::AFTER {
        return None;
    }
    if machine::REGIONS < count {
        return None;
    }
    let states = bounds.states;
    if machine::STATE_END < states {
        return None;
    }
    for r in 0..count {
        let from = r * machine::STATES;
        let row = &after[from..from + machine::STATES];
        if let Some(s) = first_in_row(row, states, guard_of[r], kept, holds) {
            return Some((r, s));
        }
    }
    None
}
