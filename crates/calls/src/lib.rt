// What each call answers, from what was loaded of a file: its table in a lent buffer, its start state, the runs of a
// trace on both machines, every point of them in a lent buffer, and a load in a lent buffer.
#![tactic(auto)]

ghost use Rattle.std.specs.Prelude.{◌≡◌, List, ℕ};
ghost use Rattle.meaning.specs.Decide.Check.{check};
ghost use Rattle.meaning.specs.Decide.Calls.{place};
ghost use Rattle.meaning.specs.Points.{points_of};
ghost use Rattle.meaning.specs.Decide.Load.{load_of};
ghost use Rattle.demands.specs.Load.{CountFits};
ghost use Rattle.loader.specs.Loading.{Loads, OrRefusal};
ghost use Rattle.calls.specs.Results.{Places, Points, Makes, Agrees, EntriesOf, start_of};

use answers::{Answer, Refusal};
use loader::{Loaded, StateRows};
use machine::StateNumber;
use run::{Both, Running};
use table::TooShort;
use waiters::PerMachine;

// What placing answers, and where it is placed the table's length, the chosen tries, the first the lowest bit, and how
// many pairs of region and guard are touched.
#[repr(C)]
#[derive(Clone, Copy)]
pub struct Placing {
    pub answer: Answer,
    pub length: usize,
    pub chosen: u16,
    pub pairs: u16,
}

impl Placing {
    // The length of the table, or the refusal.
    pub fn placed(self) -> Result<usize, Answer>
        ensures { OrRefusal self.answer self.length result }
    {
        match self.answer.number {
            0 => Ok(self.length),
            _ => Err(self.answer),
        }
    }
}

// Both machines' answers to a trace, and how many points are written.
#[repr(C)]
#[derive(Clone, Copy)]
pub struct Pointing {
    pub plain: Answer,
    pub table: Answer,
    pub count: usize,
}

// What making a load answers, and how many frames are made.
#[repr(C)]
#[derive(Clone, Copy)]
pub struct Made {
    pub answer: Answer,
    pub count: usize,
}

// The entries of an accepted file's table, from what was loaded of it.
fn entries_of(loaded: Loaded, rows: &StateRows) -> [u8; machine::ENTRIES]
    ensures { (file : List ℕ) → Loads file loaded rows.now.kept rows.now.holds rows.now.after
        → EntriesOf file result }
{
    let bounds = loaded.bounds;
    let layout = loaded.layout;
    let guard_of = layout.guard_of;
    let touched = loaded.touched;
    let mut entries = [0u8; machine::ENTRIES];
    entries::fill_entries(
        &rows.kept,
        &rows.holds,
        &rows.after,
        &guard_of,
        &touched,
        bounds.states,
        layout.regions,
        layout.guards,
        &mut entries,
    );
    entries
}

// A refusal, with no table.
fn not_placed(answer: Answer) -> Placing
    ensures { (result.answer ≡ answer) × (result.length ≡ 0) × (result.chosen ≡ 0) × (result.pairs ≡ 0) }
{
    Placing {
        answer,
        length: 0,
        chosen: 0,
        pairs: 0,
    }
}

// The table of what was loaded from byte 0 of a lent buffer; of a refused file not a byte of the buffer changes.
pub fn place_loaded(loaded: Loaded, rows: &StateRows, table: &mut [u8]) -> Placing
    ensures { (file : List ℕ) → Loads file loaded rows.now.kept rows.now.holds rows.now.after
        → Places (place file table.old) result table.new }
{
    if let Err(answer) = loaded.verdict() {
        return not_placed(answer);
    }
    let layout = loaded.layout;
    let entries = entries_of(loaded, rows);
    match table::write_table(&entries, layout.regions, layout.guards, table) {
        Err(TooShort) => not_placed(Answer::from(Refusal::BufferTooShort)),
        Ok(length) => Placing {
            answer: loaded.answer,
            length,
            chosen: loaded.choice.chosen,
            pairs: loaded.pairs,
        },
    }
}

// The number of the state at the start values of what was loaded; 0 of a refused file.
pub fn start_of(loaded: Loaded) -> usize
    ensures { (file kept holds after : List ℕ) → Loads file loaded kept holds after
        → result ≡ start_of (check file) }
{
    let bounds = loaded.bounds;
    match loaded.verdict() {
        Ok(()) => usize::from(variables::number_of(bounds, bounds.starts)),
        Err(_) => 0,
    }
}

// Both machines over what was loaded of a file: its refusal, or the runs of the trace from a start state.
pub fn both_loaded(loaded: Loaded, bytes: &[u8], start: usize, rows: &StateRows) -> Both
    ensures { (file : List ℕ) → Loads file loaded rows.now.kept rows.now.holds rows.now.after
        → Agrees file bytes.now start result.plain result.table }
{
    if let Err(answer) = loaded.verdict() {
        return PerMachine::alike(Running {
            answer,
            record: run::no_record(),
            of_file: true,
        });
    }
    let entries = entries_of(loaded, rows);
    let bounds = loaded.bounds;
    let layout = loaded.layout;
    let slices = run::slices_of(&layout, &rows.holds, &rows.after, &entries);
    run::run_from(bounds, bytes, start, &rows.kept, &slices)
}

// One answer for both machines, and no point.
fn no_points(answer: Answer) -> Pointing
    ensures { (result.plain ≡ answer) × (result.table ≡ answer) × (result.count ≡ 0) }
{
    Pointing {
        plain: answer,
        table: answer,
        count: 0,
    }
}

// Every point over what was loaded of a file: its refusal, 10 to 12, or the points of the trace from a start state.
pub fn points_loaded(
    loaded: Loaded,
    bytes: &[u8],
    start: usize,
    rows: &StateRows,
    out: &mut [u8],
) -> Pointing
    ensures { (file : List ℕ) → Loads file loaded rows.now.kept rows.now.holds rows.now.after
        → Points (points_of file bytes.now start out.old) result out.new }
{
    if let Err(answer) = loaded.verdict() {
        return no_points(answer);
    }
    if out.len() / point::POINT <= bytes.len() / trace::FRAME {
        return no_points(Answer::from(Refusal::BufferTooShort));
    }
    let bounds = loaded.bounds;
    let layout = loaded.layout;
    if let Err(refusal) = run::admit(bounds, bytes, start, &rows.kept) {
        return no_points(Answer::from(refusal));
    }
    let entries = entries_of(loaded, rows);
    let slices = run::slices_of(&layout, &rows.holds, &rows.after, &entries);
    let written = points::write_points(
        bounds,
        layout.guards,
        bytes,
        start as StateNumber,
        &slices,
        out,
    );
    Pointing {
        plain: run::frames::answer_of(written.plain),
        table: run::frames::answer_of(written.table),
        count: written.count,
    }
}

// A refusal of a load, with no frame.
fn not_made(answer: Answer) -> Made
    ensures { (result.answer ≡ answer) × (result.count ≡ 0) }
{
    Made { answer, count: 0 }
}

// A load over what was loaded of a file: its refusal, 10, or the frames that are made, of so many threads, and their lines.
pub fn load_loaded(
    loaded: Loaded,
    seed: u32,
    threads: u8,
    wanted: usize,
    rows: &StateRows,
    out: &mut [u8],
) -> Made
    ensures { (file kept : List ℕ) → Loads file loaded kept rows.now.holds rows.now.after
        → CountFits threads
        → Makes (load_of file seed threads wanted out.old) result out.new }
{
    if let Err(answer) = loaded.verdict() {
        return not_made(answer);
    }
    if out.len() / trace::FRAME < wanted {
        return not_made(Answer::from(Refusal::BufferTooShort));
    }
    let bounds = loaded.bounds;
    let layout = loaded.layout;
    let no_entries = [0u8; machine::ENTRIES];
    let slices = run::slices_of(&layout, &rows.holds, &rows.after, &no_entries);
    let count = generator::make_frames(
        seed,
        threads,
        wanted,
        variables::number_of(bounds, bounds.starts),
        &slices,
        out,
    );
    Made {
        answer: loaded.answer,
        count,
    }
}
