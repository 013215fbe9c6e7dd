// The library: the check of a file, the placing of its table into a lent buffer, runs of a trace on either machine or on
// both, from a start state or from the start values, every point of a run in a lent buffer, and a load. No call asks anything of
// its caller; each states its complete result for every input.
#![tactic(auto)]

ghost use Rattle.meaning.specs.Decide.Check as meaning;
ghost use Rattle.meaning.specs.Decide.Calls as meant;
ghost use Rattle.answers.specs.Says.{Is};
ghost use Rattle.run.specs.Results.{Runs, machine_of};
ghost use Rattle.meaning.specs.Points.{points_of};
ghost use Rattle.meaning.specs.Decide.Load.{load_of};
ghost use Rattle.calls.specs.Results.{Places, Points, PointsSay, Makes, LoadSays, Agrees, start_of, Starts};

use answers::{Answer, Refusal};
use calls::{Made, Placing, Pointing};
use loader::StateRows;
use run::{Both, Running};

// The verdict of a file: 0, or a refusal from 1 to 9, or 15, with its places.
pub fn check(file: &[u8]) -> Answer
    ensures { Is result (meaning.check file.now) }
{
    let mut rows = StateRows::EMPTY;
    rows.load(file).answer
}

// The table of a file from byte 0 of a lent buffer; refused, not a byte of the buffer changes.
pub fn place(file: &[u8], table: &mut [u8]) -> Placing
    ensures { Places (meant.place file.now table.old) result table.new }
{
    let mut rows = StateRows::EMPTY;
    let loaded = rows.load(file);
    calls::place_loaded(loaded, &rows, table)
}

// A run of a trace from a start state on the plain machine or, where `table` is true, on the table's.
pub fn run(file: &[u8], bytes: &[u8], start: usize, table: bool) -> Running
    ensures { Runs (meant.running file.now bytes.now start (machine_of table)) result }
{
    let both = run_both(file, bytes, start);
    if table { both.table } else { both.plain }
}

// Both machines on one trace, from the same start state.
pub fn run_both(file: &[u8], bytes: &[u8], start: usize) -> Both
    ensures { Agrees file.now bytes.now start result.plain result.table }
{
    let mut rows = StateRows::EMPTY;
    let loaded = rows.load(file);
    calls::both_loaded(loaded, bytes, start, &rows)
}

// Both machines on one trace, from the start values.
pub fn run_both_from_start(file: &[u8], bytes: &[u8]) -> Both
    ensures { Agrees file.now bytes.now (start_of (meaning.check file.now))
        result.plain result.table }
{
    let mut rows = StateRows::EMPTY;
    let loaded = rows.load(file);
    let start = calls::start_of(loaded);
    calls::both_loaded(loaded, bytes, start, &rows)
}

// The number of the state at the start values of an accepted file; 0 of a refused one.
pub fn start_state(file: &[u8]) -> usize
    ensures { Starts file.now result }
{
    let mut rows = StateRows::EMPTY;
    let loaded = rows.load(file);
    calls::start_of(loaded)
}

// Every point of a trace from a start state, up to where the plain machine stops, from byte 0 of a lent buffer; where the
// file, the buffer, the start or a line is refused, not a byte of the buffer changes.
pub fn points(file: &[u8], bytes: &[u8], start: usize, out: &mut [u8]) -> Pointing
    ensures points { Points (points_of file.now bytes.now start out.old) result
        out.new }
    ensures points_say { PointsSay file.now bytes.now start out.old }
{
    let mut rows = StateRows::EMPTY;
    let loaded = rows.load(file);
    calls::points_loaded(loaded, bytes, start, &rows, out)
}

// A repeatable load from the start values: up to so many frames that the plain machine allows to the first so many threads,
// drawn from a seed, their lines from byte 0 of a lent buffer; refused, not a byte of the buffer changes.
pub fn load(file: &[u8], seed: u32, threads: usize, wanted: usize, out: &mut [u8]) -> Made
    ensures makes { Makes (load_of file.now seed threads wanted out.old) result out.new }
    ensures load_says { LoadSays file.now seed threads wanted out.old }
{
    if (threads == 0) | (machine::THREADS < threads) {
        return Made {
            answer: Answer::from(Refusal::ThreadCount),
            count: 0,
        };
    }
    let mut rows = StateRows::EMPTY;
    let loaded = rows.load(file);
    calls::load_loaded(loaded, seed, threads as u8, wanted, &rows, out)
}
