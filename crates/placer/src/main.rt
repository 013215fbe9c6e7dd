// Reads a monitor file from standard input and prints its table, or its refusal. Where reading or writing fails it says
// so on standard error, and after a failed read prints nothing.
#![tactic(auto)]

ghost use Rattle.std.specs.Prelude.{◌≡◌, IfOk, OnErr, IfSome};
ghost use Rattle.io.specs.Counts.{IsPrefixLen};
ghost use Rattle.meaning.specs.Lines.{placer};
ghost use Rattle.output.specs.Printed.{Prints};

use std::io;
use std::io::Read;

fn main(rt: HostRuntime) {
    if let Err((what, why)) = place(&rt) {
        input::fail(&rt, what, why);
    }
}

// The whole program; an error comes with what failed.
fn place(rt: &HostRuntime) -> Result<(), (&'static str, io::Error)> {
    let mut out = [0u8; output::OUTPUT_BYTES];
    let end = read_and_print(&mut rt.stdin(), &mut out).map_err(|why| (
        "placer: standard input",
        why,
    ))?;
    rt.write_all(&out[..end])
        .map_err(|why| ("placer: standard output", why))
}

// What is printed of all that a reader has, into a lent buffer; where a read fails, nothing.
fn read_and_print<R: Read>(
    reader: &mut R,
    out: &mut [u8; output::OUTPUT_BYTES],
) -> io::Result<usize>
    ensures prefix_len { IfOk result (λ n. IsPrefixLen n out.new) }
    ensures prints { IfOk result (λ n. IfSome (R.remaining reader.old)
        (λ handed. Prints (placer handed) out.old n out.new)) }
    ensures nothing { OnErr result (out.new ≡ out.old) }
{
    let mut file = [0u8; output::FILE_BYTES];
    let count = input::read_on(reader, &mut file, 0)?;
    Ok(output::placer_read(&file, count, out))
}
