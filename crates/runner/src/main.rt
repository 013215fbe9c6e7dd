// Reads monitor.txt and trace.txt, each once, and prints the plain machine's line and the table's, from the start
// values; or a file's refusal once. A missing file reads as an empty one. Where opening, reading or writing fails
// otherwise it says so on standard error, and after a failed read prints nothing.
#![tactic(auto)]

ghost use Rattle.std.specs.Prelude.{ℕ, ◌≡◌, List, ◌++◌, Some, IfOk, OnErr};
ghost use Rattle.io.specs.Counts.{IsPrefixLen};
ghost use Rattle.meaning.specs.Lines.{runner};
ghost use Rattle.input.specs.Opened.{Has};
ghost use Rattle.output.specs.Printed.{Prints, Read};

use input::Stopped;
use std::fs::File;
use std::io;
use std::io::Read;

fn main(rt: HostRuntime) {
    if let Err((what, why)) = run_files(&rt) {
        input::fail(&rt, what, why);
    }
}

// The whole program; an error comes with what failed.
fn run_files(rt: &HostRuntime) -> Result<(), (&'static str, io::Error)> {
    let mut file = [0u8; output::FILE_BYTES];
    let count = read_monitor(&mut File::open(rt, "monitor.txt"), &mut file).map_err(|stopped| (
        "runner: monitor.txt",
        stopped.why,
    ))?;
    let mut out = [0u8; output::OUTPUT_BYTES];
    // Open until the lines are written: the trace may be the pipe that they are written to.
    let mut trace = File::open(rt, "trace.txt");
    let end = run(&file, count, &mut trace, &mut out).map_err(|why| ("runner: trace.txt", why))?;
    rt.write_all(&out[..end])
        .map_err(|why| ("runner: standard output", why))
}

fn read_monitor<R: Read>(
    opened: &mut io::Result<R>,
    file: &mut [u8; output::FILE_BYTES],
) -> Result<usize, Stopped>
    ensures { (handed : List ℕ) → Has R.remaining opened.old handed
        → IfOk result (λ count. Read handed count file.new) }
{
    input::read_opened(opened, file)
}

// What is printed of a file and of the trace that was opened, into a lent buffer; where the trace cannot be read, nothing.
fn run<R: Read>(
    file: &[u8; output::FILE_BYTES],
    count: usize,
    opened: &mut io::Result<R>,
    out: &mut [u8; output::OUTPUT_BYTES],
) -> io::Result<usize>
    ensures prefix_len { IfOk result (λ n. IsPrefixLen n out.new) }
    ensures prints { IfOk result (λ n. (handed frames : List ℕ) → Read handed count file.now
        → Has R.remaining opened.old frames → Prints (runner handed frames) out.old n out.new) }
    ensures nothing { OnErr result (out.new ≡ out.old) }
{
    let mut short = [0u8; output::SHORT_BYTES];
    let begun = input::read_opened(opened, &mut short)?;
    if begun < output::SHORT_BYTES {
        return Ok(output::runner_read(file, count, &short, begun, out));
    }
    match opened {
        Ok(rest) => run_long(rest, file, count, &short, out),
        Err(_) => unreachable!(),
    }
}

// A trace that fills the short buffer, read on behind its bytes.
fn run_long<R: Read>(
    rest: &mut R,
    file: &[u8; output::FILE_BYTES],
    count: usize,
    short: &[u8; output::SHORT_BYTES],
    out: &mut [u8; output::OUTPUT_BYTES],
) -> io::Result<usize>
    ensures prefix_len { IfOk result (λ n. IsPrefixLen n out.new) }
    ensures prints { IfOk result (λ n. (handed behind : List ℕ) → Read handed count file.now
        → R.remaining rest.old ≡ Some behind
        → Prints (runner handed (short.now ++ behind)) out.old n out.new) }
    ensures nothing { OnErr result (out.new ≡ out.old) }
{
    let mut trace = [0u8; output::TRACE_BYTES];
    let front = input::copy(short, &mut trace);
    let end = input::read_on(rest, &mut trace, front)?;
    Ok(output::runner_read(file, count, &trace, end, out))
}
