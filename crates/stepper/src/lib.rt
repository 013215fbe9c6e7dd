// One frame on both machines: a record of their runs by value, and of each machine the step that the rules give or the
// refusal's number. What both have in common is held and judged once. Each promise cites the step of `machine`, for every
// monitor that the lent slices hold, and for either machine.
#![tactic(auto)]

ghost use Rattle.std.specs.Prelude.{◌≡◌, Bool, true, false, not, ◌&&◌, List, [], ℕ, ◌<◌, eqb};
ghost use Rattle.sets.specs.Set.{member};
ghost use Rattle.machine.specs.Monitor.{Monitor, Config, all_idle};
ghost use Rattle.logic.specs.Tests.{any};
ghost use Rattle.machine.specs.Decide.Step.{Told, is_due, is_waiting, may_be_at, first_in, ran as ran_to};
ghost use Rattle.machine.specs.Held.{Held, HeldPlaces, HeldEntries};
ghost use Rattle.machine.specs.Agreement.{Checked};
ghost use Rattle.machine.proofs.Reached.{Reached};
ghost use Rattle.machine.proofs.Points.{ToldAt};
ghost use Rattle.threads.specs.Held.{place_of, places_of, Turned, Queued};
ghost use Rattle.stepper.specs.Answered.{answered};
ghost use Rattle.stepper.specs.Shown.{of_machine, Shows, Steps, Stays, step_by, frame_of};
ghost use Rattle.waiters.specs.Slices.{holds_at, follows_at, slices};
ghost use Rattle.stepper.specs.Slices.{newly_at, config_of};
ghost use Rattle.stepper.specs.Parts.{verdict, verdict_of, next_by, AheadOf};

use machine::StateNumber;
use threads::{Place, Thread, Threads};
use waiters::PerMachine;

// The record of both machines' runs: the state's number, all threads, and each machine's notified set.
#[derive(Clone, Copy)]
pub struct Run {
    pub state: StateNumber,
    pub threads: Threads,
    pub plain: u16,
    pub table: u16,
}

#[derive(Clone, Copy)]
pub struct Frame {
    pub thread: u8,
    pub region: u8,
    pub flag: bool,
}

// Why a machine does not take a frame.
#[derive(Clone, Copy, Debug, PartialEq, Eq)]
pub enum Refusal {
    // 13: the thread may not be at the region.
    Misplaced,
    // 14: the rules do not allow the frame.
    NotAllowed,
}

// Of each machine whether it takes the frame, or why not; and the record afterwards, which shows the next point of a machine
// that takes it, and is as it was where neither does.
#[derive(Clone, Copy)]
pub struct Outcome {
    pub answers: PerMachine<Result<(), Refusal>>,
    pub run: Run,
}

// A run at its start: all idle, none notified.
pub fn start(state: StateNumber) -> Run
    ensures { (w : Bool) → Shows w result (all_idle state) }
{
    Run {
        state,
        threads: Threads::all_idle(),
        plain: 0,
        table: 0,
    }
}

// Whether a guard holds in a state.
pub fn holds_at(holds: &[u16; machine::STATES], guard: u8, state: StateNumber) -> bool
    ensures { result ≡ holds_at holds.now guard state }
{
    sets::has(holds[(state % machine::STATE_END) as usize], guard as u32)
}

// Whether another thread than t is due.
fn other_due(each: [Thread; machine::THREADS], t: usize) -> bool
    ensures { result ≡ any 16 (λ u. not (eqb u t) && is_due (places_of each u)) }
{
    let mut found = false;
    for u in 0..machine::THREADS {
        found = (u != t) & each[u].place.is_due() | found;
    }
    found
}

// A frame is taken where the rules allow it.
#[tactic(auto, unfolding(crate::specs::Parts::verdict, crate::specs::Answered::answered, crate::specs::Answered::number_of))]
fn taken_if(allowed: bool) -> Result<(), Refusal>
    ensures { answered result ≡ verdict true true true false allowed true }
{
    if allowed {
        Ok(())
    } else {
        Err(Refusal::NotAllowed)
    }
}

// What answers a waiting thread t whose flag is 00, by a machine's notices: it must have one.
fn rechecks(notified: u16, t: u8) -> Result<(), Refusal>
    ensures { answered result ≡ verdict true true true false (member notified t) true }
{
    taken_if(sets::has(notified, t as u32))
}

// What answers a waiting thread t whose flag is 01: it must have a notice, and none of those ahead of it in its guard's line
// may have one.
fn resumes(notified: u16, ahead: u16, t: u8) -> Result<(), Refusal>
    ensures { (line : List ℕ) → AheadOf line t ahead
        → answered result ≡ verdict true true true true (member notified t) (first_in line (member notified) t) }
{
    let first = sets::lowest(sets::both(ahead, notified)) == machine::THREAD_END as u32;
    taken_if(sets::has(notified, t as u32) & first)
}

// The record after a frame with 00 that is taken: a recheck, or a thread that begins to wait. No monitor is asked.
fn paused(run: Run, frame: Frame) -> Run
    requires { frame.thread < 16 }
    ensures { Queued run.threads → Turned run.threads → (w : Bool) (m : Monitor) (told : Told) → Shows w result
        (next_by m told (config_of w run) (frame_of frame) false (is_waiting (places_of run.threads.each frame.thread))) }
{
    let t = frame.thread;
    if run.threads.each[t as usize].place.is_waiting() {
        return Run {
            plain: sets::without(run.plain, t as u32),
            table: sets::without(run.table, t as u32),
            ..run
        };
    }
    Run {
        threads: run.threads.begin_wait(t, frame.region),
        ..run
    }
}

// An accepted file's monitor as it is held: the guards of each state, the state after each region's body in each state, each
// region's guard, which regions a method begins with and which go on with the next, the table's entries, and how many regions
// there are.
#[derive(Clone, Copy)]
pub struct Slices<'a> {
    pub holds: &'a [u16; machine::STATES],
    pub after: &'a [StateNumber; machine::AFTER],
    pub guard_of: &'a [u8; machine::REGIONS],
    pub begins: &'a [u8; machine::REGIONS],
    pub goes_on: &'a [u8; machine::REGIONS],
    pub entries: &'a [u8; machine::ENTRIES],
    pub regions: usize,
}

impl Slices<'_> {
    // Whether a thread at a place may be at a region next.
    #[tactic(auto, unfolding(threads::specs::Held::place_of, machine::specs::Decide::Step::may_be_at, waiters::specs::Slices::begins_at))]
    fn may_be_at(&self, place: Place, region: u8) -> bool
        ensures { result ≡ may_be_at (slices [] [] [] self.now.begins.now [] self.now.regions) (place_of place) region }
    {
        match place {
            Place::Idle => (region as usize) < self.regions
                && self.begins[(region % machine::REGION_END) as usize] == 1,
            Place::Waiting(w) | Place::Due(w) => w == region,
        }
    }

    // Where a thread is after a region's body.
    #[tactic(auto, using(crate::proofs::Loops::follows_due), unfolding(threads::specs::Held::place_of, waiters::specs::Slices::follows_at, machine::specs::Held::follows_by))]
    fn behind(&self, region: u8) -> Place
        ensures { place_of result ≡ follows_at self.now.goes_on.now region }
    {
        if self.goes_on[(region % machine::REGION_END) as usize] == 0 {
            Place::Idle
        } else {
            Place::Due(region % machine::REGION_END + 1)
        }
    }

    // What answers a frame on each machine. Only what a waiting thread's notice asks is asked of each machine.
    fn judge(&self, run: Run, frame: Frame) -> PerMachine<Result<(), Refusal>>
        requires { frame.thread < 16 }
        ensures { Queued run.threads → Turned run.threads → (w : Bool) → answered (of_machine w result.plain result.table)
            ≡ verdict_of (slices self.now.holds.now [] self.now.guard_of.now self.now.begins.now [] self.now.regions)
            (config_of w run) (frame_of frame) }
    {
        let Frame {
            thread: t,
            region,
            flag,
        } = frame;
        let threads = run.threads;
        if other_due(threads.each, t as usize) {
            return PerMachine::alike(Err(Refusal::Misplaced));
        }
        let Thread { place, turn } = threads.each[t as usize];
        if !self.may_be_at(place, region) {
            return PerMachine::alike(Err(Refusal::Misplaced));
        }
        let guard = waiters::guard_at(self.guard_of, region);
        if flag != holds_at(self.holds, guard, run.state) {
            return PerMachine::alike(Err(Refusal::NotAllowed));
        }
        if !place.is_waiting() {
            return PerMachine::alike(Ok(()));
        }
        if flag {
            let ahead = waiters::line_ahead(threads, turn, self.guard_of, guard);
            return PerMachine {
                plain: resumes(run.plain, ahead, t),
                table: resumes(run.table, ahead, t),
            };
        }
        PerMachine {
            plain: rechecks(run.plain, t),
            table: rechecks(run.table, t),
        }
    }

    // The record after a region's body.
    fn ran(&self, run: Run, frame: Frame) -> Run
        requires { frame.thread < 16 }
        ensures { Queued run.threads → Turned run.threads → (w : Bool) → Shows w result
            (ran_to (slices self.now.holds.now self.now.after.now self.now.guard_of.now [] self.now.goes_on.now
            0)
            (newly_at self.now.holds.now self.now.guard_of.now self.now.entries.now w run.state) (config_of w run)
            (frame_of frame)) }
    {
        let t = frame.thread;
        let region = frame.region;
        let after_body = run.threads.leave(t, self.behind(region));
        let to = self.after[(region % machine::REGION_END) as usize * machine::STATES
            + (run.state % machine::STATE_END) as usize];
        let newly = waiters::made_true(self.holds, run.state, to);
        let more = waiters::told(after_body, self.guard_of, newly, self.entries, region);
        Run {
            state: to,
            threads: after_body,
            plain: sets::union(sets::without(run.plain, t as u32), more.plain),
            table: sets::union(sets::without(run.table, t as u32), more.table),
        }
    }

    // One frame on both machines.
    pub fn step(&self, run: Run, frame: Frame) -> Outcome
        ensures steps { (w : Bool) (m : Monitor) (c : Config) (kept : List ℕ) → m.regions ≡ self.now.regions
            → Held m kept self.now.holds.now self.now.after.now self.now.guard_of.now
            → HeldPlaces m self.now.begins.now self.now.goes_on.now
            → (w ≡ true → HeldEntries m self.now.entries.now)
            → frame.thread < 16 → Checked m → Reached m c → ToldAt m w c → Shows w run c
            → Steps w result (step_by m w c frame) }
        ensures stays { Stays run result }
    {
        let known = Frame {
            thread: frame.thread % machine::THREAD_END,
            ..frame
        };
        let answers = self.judge(run, known);
        if answers.plain.is_err() && answers.table.is_err() {
            return Outcome { answers, run };
        }
        let run = if known.flag {
            self.ran(run, known)
        } else {
            paused(run, known)
        };
        Outcome { answers, run }
    }
}
