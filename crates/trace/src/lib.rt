// Reads the frames of a trace: how many frames a whole trace has or its first line that is none (12), and the numbers of
// the frame at a byte.
#![tactic(auto)]

ghost use Rattle.std.specs.Prelude.{◌≡◌, ◌<◌};
ghost use Rattle.meaning.specs.Decide.Frames.{is_hex};
ghost use Rattle.trace.specs.Lined.{Tells, counted_of};
ghost use Rattle.trace.specs.Decoded.{value_of, numbers_at};

// The numbers of a frame's line.
#[derive(Clone, Copy)]
pub struct Numbers {
    pub thread: u8,
    pub region: u8,
    pub flag: bool,
}

// A line that is no frame, by its number.
#[derive(Clone, Copy, Debug, PartialEq, Eq)]
pub struct BadLine {
    pub number: usize,
}

// Bytes in a frame's line, with its 0A.
pub const FRAME: usize = 7;

// The value of a byte that is a digit.
fn digit(b: u8) -> u8
    ensures value { result ≡ value_of b }
    ensures within { result < 16 }
{
    (b % 16 + b / 64 * 9) % 16
}

// The numbers of the frame at a byte, where that is known to be one: no test of its digits is made again.
// Stays (interface): numbers and not an Option, zeros past the end: it cannot fail, and `proofs/FramesAt` speaks of what it gives.
pub fn numbers_at(trace: &[u8], at: usize) -> Numbers
    ensures { result ≡ numbers_at trace.now at }
{
    if trace.len().saturating_sub(at) < FRAME {
        return Numbers {
            thread: 0,
            region: 0,
            flag: false,
        };
    }
    Numbers {
        thread: digit(trace[at + 1]),
        region: digit(trace[at + 2]) * 16 + digit(trace[at + 3]),
        flag: trace[at + 5] == b'1',
    }
}

// Whether a byte is a digit 0-9 or A-F, without a branch.
fn is_digit(b: u8) -> bool
    ensures { result ≡ is_hex b }
{
    (b'0' <= b) & (b <= b'9') | (b'A' <= b) & (b <= b'F')
}

// Whether the line that begins at a byte is a frame, without a branch but for the length. A thread is 00 to 0F, a flag
// is 00 or 01, and 0 and 1 are the bytes whose half is that of 0.
fn is_frame(trace: &[u8], at: usize) -> bool
    ensures { Tells trace.now at result }
{
    if trace.len().saturating_sub(at) < FRAME {
        return false;
    }
    let digits = is_digit(trace[at + 1]) & is_digit(trace[at + 2]) & is_digit(trace[at + 3]);
    let marks = (trace[at] == b'0')
        & (trace[at + 4] == b'0')
        & (trace[at + 5] / 2 == b'0' / 2)
        & (trace[at + 6] == b'\n');
    digits & marks
}

// The frames of a whole trace, counted; or its first line that is none.
pub fn count(trace: &[u8]) -> Result<usize, BadLine>
    ensures { result ≡ counted_of trace.now }
{
    let lines = trace.len().div_ceil(FRAME);
    for number in 0..lines {
        if !is_frame(trace, number * FRAME) {
            return Err(BadLine { number });
        }
    }
    Ok(lines)
}
