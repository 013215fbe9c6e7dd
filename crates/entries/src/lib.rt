// The entries of a monitor that is held in slices: for each region that touches a guard, by one sweep over the states
// with all guards at once. Which guards a region touches is handed in as a set: its body leaves every other as it was.
#![tactic(auto)]

ghost use Rattle.std.specs.Prelude.{◌≡◌, ℕ, ◌+◌, ◌*◌, ◌%◌, ◌<◌, ◌≤◌, length, get_or};
ghost use Rattle.machine.specs.Limits.{most_regions, most_states, most_entries};
ghost use Rattle.machine.specs.Held.{code_of};
ghost use Rattle.entries.specs.Slices.{runs_at, Swept, Found, made, swept_code, Filled, FillsEntries};

use machine::StateNumber;

// The states that a sweep goes through: where the kept condition holds (1), the guards that hold in each, and the state
// after each region's body, at region * 4096 + state.
#[derive(Clone, Copy)]
struct States<'a> {
    kept: &'a [u8; machine::STATES],
    holds: &'a [u16; machine::STATES],
    after: &'a [StateNumber; machine::AFTER],
    count: StateNumber,
    ghost few: { count ≤ most_states },
}

// A region by its number, with its guard's.
#[derive(Clone, Copy)]
struct Region {
    number: usize,
    guard: u32,
    ghost in_table: { number < most_regions },
    ghost of_sixteen: { guard < most_regions },
}

// What a region's body does to guards over the states it may run from, as sets: those that it makes true from some
// state, those that hold before or after it from every state, and those that hold after it from some state.
#[derive(Clone, Copy)]
struct Sweep {
    raised: u16,
    covered: u16,
    left: u16,
}

// The sweep of no state.
const NO_SWEEP: Sweep = Sweep {
    raised: 0,
    covered: 65535,
    left: 0,
};

impl States<'_> {
    // May a region's body run from state s: do the kept condition and the region's guard hold?
    fn may_run(self, region: Region, s: StateNumber) -> bool
        requires { s < most_states }
        ensures { result ≡ runs_at self.entry.kept.now self.entry.holds.now region.guard s }
    {
        let at = usize::from(s);
        self.kept[at] == 1 && sets::has(self.holds[at], region.guard)
    }

    // A sweep of the states before s, and s. In slices that hold a monitor the remainder is the state's number itself.
    fn visit(self, region: Region, s: StateNumber, sweep: Sweep) -> Sweep
        requires { (s < most_states)
            × Swept self.kept.now self.holds.now self.after.now s
            region.guard region.number sweep }
        ensures { Swept self.entry.kept.now self.entry.holds.now self.entry.after.now (s + 1) region.guard region.number result }
    {
        if !self.may_run(region, s) {
            return sweep;
        }
        let at = usize::from(s);
        let here = self.holds[at];
        let t = self.after[region.number * machine::STATES + at] % machine::STATE_END;
        let there = self.holds[usize::from(t)];
        let either = here | there;
        Sweep {
            raised: either ^ here | sweep.raised,
            covered: either & sweep.covered,
            left: there | sweep.left,
        }
    }

    // The sweep of the first so many states.
    fn sweep_first(self, n: StateNumber, region: Region) -> Sweep
        requires { n ≤ most_states }
        ensures { Swept self.entry.kept.now self.entry.holds.now self.entry.after.now n region.guard region.number result }
    {
        let mut sweep = NO_SWEEP;
        for s in 0..n {
            sweep = self.visit(region, s, sweep);
        }
        sweep
    }

    // How many states are gone through for a region that touches the guards of a set: none where it touches none.
    fn needed(self, touched: u16) -> StateNumber
        ensures { (result ≤ self.entry.count) × (touched ≡ 0 → result ≡ 0) × (1 ≤ touched → result ≡ self.entry.count) }
    {
        if touched == 0 { 0 } else { self.count }
    }

    // What is found of a region that touches the guards of a set: its sweep, cut down to these. One that touches none
    // is not swept.
    fn sweep(self, region: Region, touched: u16) -> Sweep
        ensures { Found self.entry.kept.now self.entry.holds.now self.entry.after.now
            self.entry.count region.guard region.number touched result }
    {
        let sweep = self.sweep_first(self.needed(touched), region);
        Sweep {
            raised: touched & sweep.raised,
            ..sweep
        }
    }
}

// An entry as a number: 0 for none, else 1, and 2 more where it is unconditional, and 4 more where it is a broadcast.
fn code(stands: bool, always: bool, wide: bool) -> u8
    ensures { result ≡ code_of (made stands always wide) }
{
    match (stands, always, wide) {
        (false, _, _) => 0,
        (true, false, false) => 1,
        (true, true, false) => 3,
        (true, false, true) => 5,
        (true, true, true) => 7,
    }
}

impl Sweep {
    // The entries of a region, at region * 16 + guard, by its sweep and the set of guards whose entries are broadcasts.
    fn fill(self, wide: u16, guards: usize, r: usize, entries: &mut [u8])
        requires { (guards ≤ most_regions) × (r < most_regions) × (length entries.old ≡ most_entries) }
        ensures own { (g : ℕ) → g < guards → get_or entries.new (r * most_regions + g) 0
            ≡ swept_code self wide g }
        ensures others { (q g : ℕ) → g < most_regions → (q ≡ r → g < guards → ⊥)
            → get_or entries.new (q * most_regions + g) 0
            ≡ get_or entries.old (q * most_regions + g) 0 }
    {
        for g in 0..guards {
            let t = g as u32;
            entries[r * machine::REGIONS + g] = code(
                sets::has(self.raised, t),
                sets::has(self.covered, t),
                sets::has(wide, t),
            );
        }
    }
}

// The entries of all regions. A guard's are broadcasts where some region that has it leaves it true. One that does not
// touch it does so, and no state is looked at: an entry of the guard leads to a state from which that region may run.
fn fill_regions(
    states: States<'_>,
    guard_of: &[u8; machine::REGIONS],
    touched: &[u16; machine::REGIONS],
    regions: usize,
    guards: usize,
    entries: &mut [u8],
)
    requires { (regions ≤ most_regions) × (guards ≤ most_regions) × (length entries.old ≡ most_entries) }
    ensures { Filled states.entry.kept.now states.entry.holds.now states.entry.after.now
        guard_of.now touched.now states.entry.count regions guards entries.old entries.new }
{
    let mut sweeps = [NO_SWEEP; machine::REGIONS];
    let mut wide = 0;
    for r in 0..regions {
        // in slices that hold a monitor the remainder is the guard's number itself
        let own = u32::from(guard_of[r]) % 16;
        let t = touched[r];
        let sweep = states.sweep(
            Region {
                number: r,
                guard: own,
            },
            t,
        );
        sweeps[r] = sweep;
        wide = 1 << own & (t ^ 65535 | sweep.left) | wide;
    }
    for r in 0..regions {
        sweeps[r].fill(wide, guards, r, entries);
    }
}

// The entries of all regions and guards, at region * 16 + guard; where a count is too large, nothing is filled.
// `proofs/Monitors.antt` shows that they are those of a monitor that the slices hold.
pub fn fill_entries(
    kept: &[u8; machine::STATES],
    holds: &[u16; machine::STATES],
    after: &[StateNumber; machine::AFTER],
    guard_of: &[u8; machine::REGIONS],
    touched: &[u16; machine::REGIONS],
    states: StateNumber,
    regions: usize,
    guards: usize,
    entries: &mut [u8; machine::ENTRIES],
)
    ensures { FillsEntries kept.now holds.now after.now
        guard_of.now touched.now states regions guards entries.old
        entries.new }
{
    if states > machine::STATE_END || regions > machine::REGIONS || guards > machine::REGIONS {
        return;
    }
    let states = States {
        kept,
        holds,
        after,
        count: states,
    };
    fill_regions(states, guard_of, touched, regions, guards, entries);
}
