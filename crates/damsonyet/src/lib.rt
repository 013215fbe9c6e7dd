// The library for programs in C and in Rust: each call is exported under its own name by the C calling convention, takes
// bytes as a pointer and a length, and answers by value. `include/damsonyet.h` declares them. No call asks anything of its
// caller but what C itself asks; each states its complete result for every input.
#![tactic(auto)]

ghost use Rattle.std.specs.Prelude.{◌≡◌, List, ℕ, ◌<◌, get_or};
ghost use Rattle.meaning.specs.Decide.Check as meaning;
ghost use Rattle.meaning.specs.Calls as meant;
ghost use Rattle.meaning.specs.Decide.Calls as calls;
ghost use Rattle.meaning.specs.Lines.{placer, runner};
ghost use Rattle.meaning.specs.Points.{points_of};
ghost use Rattle.meaning.specs.Decide.Load.{load_of};
ghost use Rattle.answers.specs.Says.{Is};
ghost use Rattle.run.specs.Results.{Runs, machine_of};
ghost use Rattle.calls.specs.Results.{Places, Points, PointsSay, Makes, LoadSays, Agrees, Starts, start_of};
ghost use Rattle.output.specs.Printed.{Prints};
ghost use Rattle.survey.specs.Told.{OutlineTold, StateTold, NumberTold, FatesTold};
ghost use Rattle.damsonyet.specs.Flat.{RanAs, Flattens, BothAgree};

use answers::Answer;
use calls::{Made, Placing, Pointing};
use lookup::{Numbered, State};
use outline::Outline;
use run::{Both, Running};
use survey::Fates;

// What a run answers and its record, with each place and each turn as a byte.
#[repr(C)]
#[derive(Clone, Copy)]
pub struct Ran {
    pub answer: Answer,
    pub vars: usize,
    pub values: [u16; syntax::VARIABLES],
    pub places: [u8; machine::THREADS],
    pub notified: u16,
    pub how_many: u32,
    pub of_file: bool,
    pub turns: [u8; machine::THREADS],
}

// A run's results with no enum in them.
impl From<Running> for Ran {
    ghost from_gives = { Flattens };

    fn from(running: Running) -> Ran {
        let record = running.record;
        let values = record.values;
        let threads = record.threads;
        Ran {
            answer: running.answer,
            vars: record.vars,
            values,
            places: point::place_bytes(threads),
            notified: record.notified,
            how_many: record.how_many,
            of_file: running.of_file,
            turns: point::turn_bytes(threads),
        }
    }
}

// The results of both machines on one trace.
#[repr(C)]
#[derive(Clone, Copy)]
pub struct BothRan {
    pub plain: Ran,
    pub table: Ran,
}

// Both machines' results with no enum in them.
impl From<Both> for BothRan {
    ghost from_gives = { λ both ran. (file bytes : List ℕ) (s : ℕ) → Agrees file bytes s both.plain both.table
        → BothAgree file bytes s ran };

    fn from(both: Both) -> BothRan {
        BothRan {
            plain: Ran::from(both.plain),
            table: Ran::from(both.table),
        }
    }
}

// The values of a state, each with 128 added.
#[repr(C)]
#[derive(Clone, Copy)]
pub struct Values {
    pub held: [u16; syntax::VARIABLES],
}

// The verdict of a file: 0, or a refusal from 1 to 9, or 15, with its places.
#[unsafe(no_mangle)]
pub extern "C" fn damsonyet_check(file: &[u8]) -> Answer
    ensures { Is result (meaning.check file.now) }
{
    monitor::check(file)
}

// The table of a file from byte 0 of a lent buffer; refused, not a byte of the buffer changes.
#[unsafe(no_mangle)]
pub extern "C" fn damsonyet_place(file: &[u8], table: &mut [u8]) -> Placing
    ensures { Places (calls.place file.now table.old) result table.new }
{
    monitor::place(file, table)
}

// A run of a trace from a start state on the plain machine or, where `table` is true, on the table's.
#[unsafe(no_mangle)]
pub extern "C" fn damsonyet_run(file: &[u8], trace: &[u8], start: usize, table: bool) -> Ran
    ensures { RanAs (calls.running file.now trace.now start (machine_of table)) result }
{
    Ran::from(monitor::run(file, trace, start, table))
}

// Both machines on one trace, from the same start state.
#[unsafe(no_mangle)]
pub extern "C" fn damsonyet_run_both(file: &[u8], trace: &[u8], start: usize) -> BothRan
    ensures { BothAgree file.now trace.now start result }
{
    BothRan::from(monitor::run_both(file, trace, start))
}

// Both machines on one trace, from the start values.
#[unsafe(no_mangle)]
pub extern "C" fn damsonyet_run_both_from_start(file: &[u8], trace: &[u8]) -> BothRan
    ensures { BothAgree file.now trace.now
        (start_of (meaning.check file.now)) result }
{
    BothRan::from(monitor::run_both_from_start(file, trace))
}

// The number of the state at the start values of an accepted file; 0 of a refused one.
#[unsafe(no_mangle)]
pub extern "C" fn damsonyet_start_state(file: &[u8]) -> usize
    ensures { Starts file.now result }
{
    monitor::start_state(file)
}

// A repeatable load from the start values: up to so many frames that the plain machine allows to the first so many threads,
// drawn from a seed, their lines from byte 0 of a lent buffer; refused, not a byte of the buffer changes.
#[unsafe(no_mangle)]
pub extern "C" fn damsonyet_load(
    file: &[u8],
    seed: u32,
    threads: usize,
    wanted: usize,
    out: &mut [u8],
) -> Made
    ensures makes { Makes (load_of file.now seed threads wanted out.old) result out.new }
    ensures load_says { LoadSays file.now seed threads wanted out.old }
{
    monitor::load(file, seed, threads, wanted, out)
}

// What placer prints of a file, and what runner prints of a file and a trace, from byte 0 of a lent buffer.
#[unsafe(no_mangle)]
pub extern "C" fn damsonyet_placer_lines(file: &[u8], out: &mut [u8; output::OUTPUT_BYTES]) -> usize
    ensures { Prints (placer file.now) out.old result out.new }
{
    output::placer_lines(file, out)
}

#[unsafe(no_mangle)]
pub extern "C" fn damsonyet_runner_lines(
    file: &[u8],
    trace: &[u8],
    out: &mut [u8; output::OUTPUT_BYTES],
) -> usize
    ensures { Prints (runner file.now trace.now) out.old result out.new }
{
    output::runner_lines(file, trace, out)
}

// Every point of a trace from a start state, up to where the plain machine stops, from byte 0 of a lent buffer.
#[unsafe(no_mangle)]
pub extern "C" fn damsonyet_points(
    file: &[u8],
    trace: &[u8],
    start: usize,
    out: &mut [u8],
) -> Pointing
    ensures points { Points (points_of file.now trace.now start out.old) result
        out.new }
    ensures points_say { PointsSay file.now trace.now start out.old }
{
    monitor::points(file, trace, start, out)
}

// What a file has and where it stands among its bytes.
#[unsafe(no_mangle)]
pub extern "C" fn damsonyet_outline_of(file: &[u8]) -> Outline
    ensures { OutlineTold file.now result }
{
    survey::outline(file)
}

// The state with a number.
#[unsafe(no_mangle)]
pub extern "C" fn damsonyet_state_at(file: &[u8], number: usize) -> State
    ensures { StateTold file.now number result }
{
    survey::state_at(file, number)
}

// The number of the state with some values.
#[unsafe(no_mangle)]
pub extern "C" fn damsonyet_number_of(file: &[u8], values: Values) -> Numbered
    ensures { NumberTold file.now values.held result }
{
    survey::number_of(file, values.held)
}

// What becomes of each try of a file, told beside 0 and 9.
#[unsafe(no_mangle)]
pub extern "C" fn damsonyet_fates_of(file: &[u8]) -> Fates
    ensures { FatesTold file.now result }
{
    survey::fates_of(file)
}
