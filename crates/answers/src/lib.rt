// What a call answers: an answer's number (0 for accepted) and two places, and the refusals by name.
#![tactic(auto)]

ghost use Rattle.std.specs.Prelude.{◌≡◌};

use machine::StateNumber;

#[repr(C)]
#[derive(Clone, Copy)]
pub struct Answer {
    pub number: u8,
    pub first: usize,
    pub second: usize,
}

/// Why a file, a trace, a start state, a buffer or a count is refused, and where. A byte is a place in the file.
#[derive(Clone, Copy, Debug, PartialEq, Eq)]
pub enum Refusal {
    /// 1: the file has too many bytes.
    TooLong,
    /// 2: no token begins at this byte, or one that is too long.
    NoToken(usize),
    /// 3: too many tokens, or too many brackets open, at this byte.
    Crowded(usize),
    /// 4: no file of the grammar goes on with the token at this byte.
    NotInGrammar(usize),
    /// 5: a variable, try, method or region too many at this byte.
    PastLimit(usize),
    /// 6: the name at this byte is declared again, or not declared.
    Misnamed(usize),
    /// 7: the variable at this byte has a bad range or start value, or makes too many states.
    BadRange(usize),
    /// 8: the start state is not kept; the byte is that of `keep`.
    StartNotKept(usize),
    /// 9: the region's body, from the state, has a fault or does not end in a kept state.
    Breaks { region: usize, state: StateNumber },
    /// 10: the buffer that was lent is too short.
    BufferTooShort,
    /// 11: the start number is that of no state, or its state is not kept.
    NoStart,
    /// 12: this line of the trace is no frame.
    NoFrame(usize),
    /// 13: this frame is not its thread's to take.
    Misplaced(usize),
    /// 14: no rule takes this frame.
    NotAllowed(usize),
    /// 15: the remainder at this byte has a divisor below 1 in some state.
    NoRemainder(usize),
    /// 16: the count of threads is not 1 to 16.
    ThreadCount,
}

impl From<Refusal> for Answer {
    ghost use Rattle.answers.specs.Says.{Says};
    ghost use Rattle.answers.specs.Numbered.{numbered};

    ghost from_gives = { λ refusal answer. Says answer (numbered refusal) };

    fn from(refusal: Refusal) -> Answer {
        match refusal {
            Refusal::TooLong => say(1, 0, 0),
            Refusal::NoToken(byte) => say(2, byte, 0),
            Refusal::Crowded(byte) => say(3, byte, 0),
            Refusal::NotInGrammar(byte) => say(4, byte, 0),
            Refusal::PastLimit(byte) => say(5, byte, 0),
            Refusal::Misnamed(byte) => say(6, byte, 0),
            Refusal::BadRange(byte) => say(7, byte, 0),
            Refusal::StartNotKept(byte) => say(8, byte, 0),
            Refusal::Breaks { region, state } => say(9, region, usize::from(state)),
            Refusal::BufferTooShort => say(10, 0, 0),
            Refusal::NoStart => say(11, 0, 0),
            Refusal::NoFrame(line) => say(12, line, 0),
            Refusal::Misplaced(frame) => say(13, frame, 0),
            Refusal::NotAllowed(frame) => say(14, frame, 0),
            Refusal::NoRemainder(byte) => say(15, byte, 0),
            Refusal::ThreadCount => say(16, 0, 0),
        }
    }
}

impl Answer {
    /// The answer of what is accepted.
    pub fn accepted() -> Self
        ensures { (result.number ≡ 0) × (result.first ≡ 0) × (result.second ≡ 0) }
    {
        say(0, 0, 0)
    }
}

pub fn say(number: u8, first: usize, second: usize) -> Answer
    ensures { (result.number ≡ number) × (result.first ≡ first) × (result.second ≡ second) }
{
    Answer {
        number,
        first,
        second,
    }
}
