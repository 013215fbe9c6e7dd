// Runs a trace over an accepted file's slices, from a start state, on both machines: of each 11 to 14, or the record of its
// run.
#![tactic(auto)]

pub mod frames;

ghost use Rattle.std.specs.Prelude.{◌≡◌, Bool, List, ℕ, ◌<◌, length, Ok};
ghost use Rattle.syntax.specs.Tree.{Monitor};
ghost use Rattle.machine.specs.Monitor.{Config};
ghost use Rattle.machine.specs.Monitor as machine;
ghost use Rattle.machine.specs.Limits.{most_states};
ghost use Rattle.machine.specs.Agreement.{Checked};
ghost use Rattle.machine.specs.Held.{Held, HeldPlaces, HeldEntries};
ghost use Rattle.meaning.specs.Model.{vars, regions, model};
ghost use Rattle.meaning.specs.State.{count};
ghost use Rattle.meaning.specs.Calls as calls;
ghost use Rattle.meaning.specs.Decide.Calls as decided;
ghost use Rattle.stepper.specs.Shown.{of_machine, notices_in, Shows};
ghost use Rattle.variables.specs.Bounded.{Bounded};
ghost use Rattle.answers.specs.Numbered.{numbered};
ghost use Rattle.run.specs.Ended.{Admits, StopsAs};
ghost use Rattle.run.specs.Results.{Runs, Records, NoRecord, machine_of};

use answers::{Answer, Refusal};
use frames::Stop;
use layout::Layout;
use machine::StateNumber;
use stepper::{Run, Slices};
use threads::{Place, Thread};
use variables::Bounds;
use waiters::PerMachine;

// The record of a run: how many variables there are and each value with 128 added, the place and the turn of each of
// sixteen threads, the notified set and how many are in it.
#[derive(Clone, Copy)]
pub struct Record {
    pub vars: usize,
    pub values: [u16; syntax::VARIABLES],
    pub threads: [Thread; machine::THREADS],
    pub notified: u16,
    pub how_many: u32,
}

// What a run answers, its record where the trace is accepted, and whether the answer is the file's refusal.
#[derive(Clone, Copy)]
pub struct Running {
    pub answer: Answer,
    pub record: Record,
    pub of_file: bool,
}

pub fn no_record() -> Record
    ensures { NoRecord result }
{
    Record {
        vars: 0,
        values: [128u16; syntax::VARIABLES],
        threads: [Thread {
            place: Place::Idle,
            turn: 0,
        }; machine::THREADS],
        notified: 0,
        how_many: 0,
    }
}

// A refusal of the start or of the trace, with no record.
fn not_run(refusal: Refusal) -> Running
    ensures { Runs (calls.not_run (numbered refusal)) result }
{
    Running {
        answer: Answer::from(refusal),
        record: no_record(),
        of_file: false,
    }
}

// 11 and 12: what a run is refused with before any frame is judged.
pub fn admit(
    bounds: Bounds,
    bytes: &[u8],
    start: usize,
    kept: &[u8; machine::STATES],
) -> Result<(), Refusal>
    ensures admits { (m : Monitor) (holds after guards : List ℕ) → Bounded (vars m) bounds
        → Held (model m) kept.now holds after guards → Admits m start bytes.now result }
    ensures start_lt_most_states { result ≡ Ok tt → start < most_states }
{
    if machine::STATES <= start || bounds.states <= start as StateNumber {
        return Err(Refusal::NoStart);
    }
    if kept[start] != 1 {
        return Err(Refusal::NoStart);
    }
    match trace::count(bytes) {
        Err(bad) => Err(Refusal::NoFrame(bad.number)),
        Ok(_) => Ok(()),
    }
}

// The record of a run's end.
fn record_of(bounds: Bounds, run: Run, notified: u16) -> Record
    ensures { (m : Monitor) (w : Bool) (c : Config) → Bounded (vars m) bounds → notified ≡ notices_in w run
        → Shows w run c → c.state < count (vars m) → Records (calls.record_of m c) result }
{
    let threads = run.threads.each;
    Record {
        vars: bounds.count,
        values: variables::values_of(bounds, run.state),
        threads,
        notified,
        how_many: sets::count(notified),
    }
}

// The results of both machines on one trace.
pub type Both = PerMachine<Running>;

// What a machine's run gives: its refusal, or its record.
fn running_of(bounds: Bounds, stop: Option<Stop>, run: Run, notified: u16) -> Running
    ensures { (m : Monitor) (w : Bool) (x : machine.Run) → Bounded (vars m) bounds → notified ≡ notices_in w run
        → StopsAs w (count (vars m)) stop run x → Runs (decided.running_of m x) result }
{
    match stop {
        Some(stop) => not_run(Refusal::from(stop)),
        None => Running {
            answer: Answer::accepted(),
            record: record_of(bounds, run, notified),
            of_file: false,
        },
    }
}

// What was laid out and swept of an accepted file, as a run reads it.
pub fn slices_of<'a>(
    layout: &'a Layout,
    holds: &'a [u16; machine::STATES],
    after: &'a [StateNumber; machine::AFTER],
    entries: &'a [u8; machine::ENTRIES],
) -> Slices<'a>
    ensures laid { (result.guard_of.now ≡ layout.now.guard_of) × (result.begins.now ≡ layout.now.begins)
        × (result.goes_on.now ≡ layout.now.goes_on) × (result.regions ≡ layout.now.regions) }
    ensures swept { (result.holds.now ≡ holds.now) × (result.after.now ≡ after.now) × (result.entries.now ≡ entries.now) }
{
    Slices {
        holds,
        after,
        guard_of: &layout.guard_of,
        begins: &layout.begins,
        goes_on: &layout.goes_on,
        entries,
        regions: layout.regions,
    }
}

// 11 to 14: a run of a trace over an accepted file's slices, on both machines.
pub fn run_from(
    bounds: Bounds,
    bytes: &[u8],
    start: usize,
    kept: &[u8; machine::STATES],
    slices: &Slices,
) -> Both
    ensures { (m : Monitor) → Bounded (vars m) bounds → slices.now.regions ≡ length (regions m)
        → Held (model m) kept.now slices.now.holds.now slices.now.after.now slices.now.guard_of.now
        → HeldPlaces (model m) slices.now.begins.now slices.now.goes_on.now
        → HeldEntries (model m) slices.now.entries.now → Checked (model m)
        → (w : Bool) → Runs (decided.run_from m (machine_of w) start bytes.now) (of_machine w result.plain result.table) }
{
    if let Err(refusal) = admit(bounds, bytes, start, kept) {
        return PerMachine::alike(not_run(refusal));
    }
    let ended = frames::run_trace(bytes, start as StateNumber, slices);
    let last = ended.run;
    PerMachine {
        plain: running_of(bounds, ended.plain, last, last.plain),
        table: running_of(bounds, ended.table, last, last.table),
    }
}
