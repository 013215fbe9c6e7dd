// The choice among a file's tries: from those that hold at the start values each pass drops what some body breaks, until
// nothing is dropped; and the kept condition with the chosen ones in it.
#![tactic(auto)]

ghost use Rattle.std.specs.Prelude.{◌≡◌, Bool, not, ◌&&◌, ℕ, ◌+◌, ◌*◌, ◌<◌, ◌≤◌, length, get_or, eqb};
ghost use Rattle.machine.specs.Limits.{most_regions, most_states, most_after};
ghost use Rattle.syntax.specs.Limits.{most_tries};
ghost use Rattle.syntax.specs.Tree.{Monitor};
ghost use Rattle.logic.specs.Tests.{bit};
ghost use Rattle.sets.specs.Set.{member};
ghost use Rattle.choice.specs.Slots.{lacks, binds_by, breaks_by, breaks_row, slot_of, mark_if, row_slot};
ghost use Rattle.choice.specs.Slots.{rows_slot};
ghost use Rattle.choice.specs.Chosen.{Tried, Chooses};

use machine::StateNumber;

// Stays (interface): `survey::Fates`, which C reads, holds these three arrays as they stand here.
// The chosen tries as bits; and of each try that a body breaks the pass, from 1, and the region and the state that break
// it. All three are 0 of a chosen try, and of one that is false at the start values.
#[derive(Clone, Copy)]
pub struct Choice {
    pub chosen: u16,
    pub passes: [u8; syntax::TRIES],
    pub regions: [u8; syntax::TRIES],
    pub states: [StateNumber; syntax::TRIES],
}

impl Choice {
    // Try i is dropped, in a pass, by a region from a state.
    fn mark(self, i: usize, pass: u8, region: u8, state: StateNumber) -> Choice
        ensures { (u : ℕ) → u < most_tries
            → slot_of result u ≡ mark_if (eqb u i) pass region state (slot_of self u) }
    {
        let mut next = self;
        if syntax::TRIES <= i {
            return next;
        }
        next.chosen = sets::without(self.chosen, i as u32);
        next.passes[i] = pass;
        next.regions[i] = region;
        next.states[i] = state;
        next
    }

    // Those of a set are dropped.
    fn drop_all(self, lost: u16, pass: u8, region: u8, state: StateNumber) -> Choice
        ensures { (u : ℕ) → u < most_tries
            → slot_of result u ≡ mark_if (member lost u) pass region state (slot_of self u) }
    {
        let mut next = self;
        for i in 0..syntax::TRIES {
            if sets::has(lost, i as u32) {
                next = next.mark(i, pass, region, state);
            }
        }
        next
    }
}

// A set of tries, of which none is dropped.
pub fn undropped(set: u16) -> Choice
    ensures { (result.chosen ≡ set) × ((u : ℕ) → u < most_tries
        → slot_of result u ≡ record { stands = member set u; pass = 0; region = 0; state = 0 }) }
{
    Choice {
        chosen: set,
        passes: [0u8; syntax::TRIES],
        regions: [0u8; syntax::TRIES],
        states: [0u16; syntax::TRIES],
    }
}

// Does a set lack a member of another?
fn misses(set: u16, other: u16) -> bool
    ensures { result ≡ lacks set other }
{
    sets::minus(other, set) != 0
}

// What holds at each state: keep, as 1 or 0, and of the guards and of the tries those that hold, as sets.
#[derive(Clone, Copy)]
struct Truths<'a> {
    keep: &'a [u8],
    holds: &'a [u16],
    tried: &'a [u16],
}

impl Truths<'_> {
    // While a set of tries stands: do keep, the set and a guard hold at a state, from which the body stays in range?
    fn binds(self, guard: u8, set: u16, s: StateNumber, to: StateNumber) -> bool
        ensures { result
            ≡ binds_by self.entry.keep.now self.entry.holds.now self.entry.tried.now guard set s to }
    {
        if misses(states::at(self.tried, s, 0), set) {
            return false;
        }
        if states::at(self.keep, s, 0) != 1 {
            return false;
        }
        if machine::STATE_END <= to {
            return false;
        }
        sets::has(states::at(self.holds, s, 0), guard as u32)
    }

    // The states of one region, by the outcomes of its body: each try that it breaks while a set stands is dropped.
    fn drop_row(
        self,
        row: &[StateNumber],
        states: StateNumber,
        guard: u8,
        set: u16,
        pass: u8,
        region: u8,
        before: Choice,
    ) -> Choice
        ensures { (u : ℕ) → u < most_tries
            → slot_of result u ≡ row_slot states
            (breaks_row row.now guard self.entry.keep.now self.entry.holds.now self.entry.tried.now set u) pass region
            (slot_of before u) }
    {
        let mut choice = before;
        for s in 0..states {
            let to = states::at(row, s, 0);
            if self.binds(guard, set, s, to) {
                let lost = sets::minus(choice.chosen, states::at(self.tried, to, 0));
                if lost != 0 {
                    choice = choice.drop_all(lost, pass, region, s);
                }
            }
        }
        choice
    }

    // One pass over all regions.
    fn drop_pass(
        self,
        after: &[StateNumber],
        states: StateNumber,
        guard_of: [u8; machine::REGIONS],
        regions: usize,
        set: u16,
        pass: u8,
        before: Choice,
    ) -> Choice
        requires { (states ≤ most_states) × (regions ≤ most_regions) × (most_after ≤ length after.now) }
        ensures { (u : ℕ) → u < most_tries
            → slot_of result u ≡ rows_slot regions states
            (breaks_by after.now guard_of self.entry.keep.now self.entry.holds.now self.entry.tried.now set u) pass
            (slot_of before u) }
    {
        let mut choice = before;
        for r in 0..regions {
            let from = r * machine::STATES;
            let to = from + machine::STATES;
            let row = &after[from..to];
            choice = self.drop_row(row, states, guard_of[r], set, pass, r as u8, choice);
        }
        choice
    }
}

// The choice among so many tries, of which those that hold at each state are held in `tried`: `start` is the state at
// the start values, `after` has the outcomes of the bodies.
pub fn choose(
    states: StateNumber,
    guard_of: [u8; machine::REGIONS],
    regions: usize,
    start: StateNumber,
    tries: usize,
    keep: &[u8],
    holds: &[u16],
    after: &[StateNumber],
    tried: &[u16],
) -> Choice
    ensures { (m : Monitor) → Tried m states guard_of regions start tries keep.now
        holds.now after.now tried.now → Chooses m result }
{
    let truths = Truths { keep, holds, tried };
    let mut choice = undropped(sets::below(states::at(tried, start, 0), tries));
    if machine::STATE_END < states {
        return choice;
    }
    if machine::REGIONS < regions {
        return choice;
    }
    if after.len() < machine::AFTER {
        return choice;
    }
    if syntax::TRIES < tries {
        return choice;
    }
    for k in 0..tries {
        let set = choice.chosen;
        let next = truths.drop_pass(after, states, guard_of, regions, set, (k + 1) as u8, choice);
        if next.chosen == set {
            return choice;
        }
        choice = next;
    }
    choice
}

// The kept condition at every state: keep, where the chosen tries hold too.
pub fn strengthen(kept: &mut [u8], tried: &[u16], chosen: u16, states: StateNumber)
    ensures { (s : ℕ) (b : Bool) → s < states → states ≤ length kept.old
        → get_or kept.old s 0 ≡ bit b
        → get_or kept.new s 0 ≡ bit (b && not (lacks (get_or tried.now s 0) chosen)) }
{
    if chosen == 0 {
        return;
    }
    if kept.len() < states as usize {
        return;
    }
    for s in 0..states {
        if misses(states::at(tried, s, 0), chosen) {
            kept[s as usize] = 0;
        }
    }
}
