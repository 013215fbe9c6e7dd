// What the programs print, from byte 0 of a lent buffer; the bytes behind are kept. Each call states every byte, for
// every input: `placer_lines` and `runner_lines` of whole slices, the others of what a program has read so far.
#![tactic(auto)]

ghost use Rattle.std.specs.Prelude.{ℕ, ◌+◌, ◌≤◌, ◌<◌, ◌≡◌, ◌⊎◌, List, length, take};
ghost use Rattle.io.specs.Counts.{IsPrefixLen};
ghost use Rattle.meaning.specs.Calls as calls;
ghost use Rattle.meaning.specs.Lines.{run_line, placer, runner, trace_bytes};
ghost use Rattle.demands.specs.Demand1.{NeverEleven};
ghost use Rattle.demands.specs.Widths.{RunFits};
ghost use Rattle.run.specs.Results.{Runs};
ghost use Rattle.digits.specs.Written.{Writes};
ghost use Rattle.output.specs.Printed.{Prints, Read, output_bytes};

use run::{Both, Running};

// The bytes of a buffer that has room for all that the programs print.
pub const OUTPUT_BYTES: usize = 4096;

// The bytes by which a file is judged, one more than it may have; those by which runner judges a trace; and those of a
// buffer that most traces fit.
pub const FILE_BYTES: usize = 8193;

pub const TRACE_BYTES: usize = 65536;

pub const SHORT_BYTES: usize = 4096;

// What placer prints of a file: its table, or its refusal's line.
pub fn placer_lines(file: &[u8], out: &mut [u8; OUTPUT_BYTES]) -> usize
    ensures { Prints (placer file.now) out.old result out.new }
{
    put_table(file, out)
}

// What runner prints of a file and a trace: a line for each machine, or the file's refusal once.
pub fn runner_lines(file: &[u8], trace: &[u8], out: &mut [u8; OUTPUT_BYTES]) -> usize
    ensures prints { Prints (runner file.now trace.now) out.old result out.new }
    ensures never_eleven { NeverEleven file.now trace.now }
{
    put_runs(file, front(trace, TRACE_BYTES), out)
}

// What placer prints of any file of which the first `count` bytes of the buffer were read: all that it has, or as many
// as the buffer takes.
pub fn placer_read(file: &[u8; FILE_BYTES], count: usize, out: &mut [u8; OUTPUT_BYTES]) -> usize
    ensures prefix_len { IsPrefixLen result out.new }
    ensures prints { (handed : List ℕ) → Read handed count file.now
        → Prints (placer handed) out.old result out.new }
{
    placer_lines(front(file, count), out)
}

// What runner prints of any file and trace of which so many bytes were read, where that is all of the trace, or as many
// as it is judged by; where a buffer of fewer is full, nothing.
pub fn runner_read(
    file: &[u8; FILE_BYTES],
    count: usize,
    trace: &[u8],
    end: usize,
    out: &mut [u8; OUTPUT_BYTES],
) -> usize
    ensures prefix_len { IsPrefixLen result out.new }
    ensures prints { (handed frames : List ℕ) → Read handed count file.now
        → Read frames end trace.now → (end < length trace.now) ⊎ (trace_bytes ≤ length trace.now)
        → Prints (runner handed frames) out.old result out.new }
    ensures nothing { length trace.now ≤ end → length trace.now < trace_bytes
        → (result ≡ 0) × (out.new ≡ out.old) }
{
    if trace.len() <= end && trace.len() < TRACE_BYTES {
        return 0;
    }
    runner_lines(front(file, count), front(trace, end), out)
}

// So many bytes of a buffer, or all.
fn front(buffer: &[u8], count: usize) -> &[u8]
    ensures { result.now ≡ take count buffer.now }
{
    buffer.get(..count).unwrap_or(buffer)
}

// The table, or the refusal's line, into a slice.
fn put_table(file: &[u8], out: &mut [u8]) -> usize
    requires { output_bytes ≤ length out.old }
    ensures { Prints (placer file.now) out.old result out.new }
{
    let placing = monitor::place(file, out);
    let answer = placing.answer;
    if answer.number == 0 {
        return placing.length;
    }
    lines::put_answer(out, 0, answer.number, answer.first, answer.second)
}

// A trace that is not cut: the plain machine's line, and the table's unless the file is refused.
fn put_runs(file: &[u8], trace: &[u8], out: &mut [u8]) -> usize
    requires { (length trace.now ≤ trace_bytes) × (output_bytes ≤ length out.old) }
    ensures { Prints (runner file.now trace.now) out.old result out.new }
{
    let Both { plain, table } = monitor::run_both_from_start(file, trace);
    let next = put_running(out, 0, plain);
    if plain.of_file {
        return next;
    }
    put_running(out, next, table)
}

// A machine's line at a place of the buffer: its refusal, or its record.
fn put_running(out: &mut [u8], at: usize, running: Running) -> usize
    ensures { (x : calls.Running) → Runs x running → RunFits x → at + 47 ≤ length out.old
        → Writes (run_line x) out.old at result out.new }
{
    let answer = running.answer;
    if answer.number != 0 {
        return lines::put_answer(out, at, answer.number, answer.first, answer.second);
    }
    let record = running.record;
    lines::put_record(out, at, record.vars, record.values, record.threads)
}
