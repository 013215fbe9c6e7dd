// The tokens of a file one by one: a cursor by value whose method hands out the token and the advanced cursor, and a
// reader that holds the file's slice and calls the cursor. Each promise cites the definitions of `syntax`.
#![tactic(auto)]

ghost use Rattle.std.specs.Prelude.{◌≡◌, [], ◌∷◌, ℕ, Bool, ◌+◌, ◌≤◌, ◌<◌, List, drop, length};
ghost use Rattle.syntax.specs.Bytes.{blank, digit, word_byte, decimal};
ghost use Rattle.syntax.specs.Decide.Leading.{leading};
ghost use Rattle.syntax.specs.Decide.Scan.{mark_of, nothing, scan as scanned};
ghost use Rattle.syntax.specs.Limits.{most_digits};
ghost use Rattle.syntax.specs.Token.{marks};
ghost use Rattle.scanner.specs.Step.{marked, word_at, number_at, step_of, step_to, step_at};

// A token: a word with its offsets, a number with its value, a mark with its kind, or none.
// Stays (interface): the scope lists by place that a token is an enum with "none" as a case.
#[derive(Clone, Copy)]
pub enum Token {
    Word(usize, usize),
    Number(u16),
    Mark(u8),
    None,
}

// A byte of a file.
// Stays (interface): the scope lists by place a cursor by value that returns the token and the advanced cursor.
#[derive(Clone, Copy)]
pub struct Cursor {
    pub at: usize,
}

// A file and a byte of it. Its functions are thin: each unpacks the slice and the byte and leaves the work to the
// cursor.
#[derive(Clone, Copy)]
pub struct Reader<'a> {
    pub file: &'a [u8],
    pub at: usize,
}

// A token, the byte at which it begins, and the cursor past it. Where no token begins, the cursor stays there.
#[derive(Clone, Copy)]
pub struct Step {
    pub token: Token,
    pub start: usize,
    pub next: Cursor,
}

fn is_blank(b: u8) -> bool
    ensures { result ≡ blank b }
{
    (b == b'\t') | (b == b'\n') | (b == b'\r') | (b == b' ')
}

fn is_digit(b: u8) -> bool
    ensures { result ≡ digit b }
{
    b.is_ascii_digit()
}

fn is_word_byte(b: u8) -> bool
    ensures { result ≡ word_byte b }
{
    b.is_ascii_alphanumeric() || b == b'_'
}

// Where a run of bytes that pass a test ends.
fn run_end<P: Fn(u8) -> bool>(file: &[u8], at: usize, passes: P) -> usize
    requires { P.IsAlwaysCallable passes }
    ensures leads { (p : ℕ → Bool) → ((b : ℕ) (r : Bool) → P.post passes b r → r ≡ p b)
        → result ≡ at + leading p (drop at file.now) }
    ensures forward { at ≤ result }
{
    for i in at..file.len() {
        if !passes(file[i]) {
            return i;
        }
    }
    at.max(file.len())
}

// The mark that two bytes begin with, and how many bytes it has; the second byte is 0 at the end of a file.
fn mark_of(a: u8, b: u8) -> Option<(u8, usize)>
    ensures { result ≡ marked (mark_of marks (a ∷ b ∷ [])) }
{
    match a {
        b'{' => Some((syntax::LBRACE, 1)),
        b'}' => Some((syntax::RBRACE, 1)),
        b'(' => Some((syntax::LPAREN, 1)),
        b')' => Some((syntax::RPAREN, 1)),
        b';' => Some((syntax::SEMICOLON, 1)),
        b'=' => if b == b'=' {
            Some((syntax::SAME, 2))
        } else {
            Some((syntax::EQUALS, 1))
        },
        b'.' => if b == b'.' {
            Some((syntax::DOTS, 2))
        } else {
            None
        },
        b':' => if b == b'=' {
            Some((syntax::BECOMES, 2))
        } else {
            None
        },
        b'!' => if b == b'=' {
            Some((syntax::DIFFERS, 2))
        } else {
            Some((syntax::BANG, 1))
        },
        b'<' => if b == b'=' {
            Some((syntax::AT_MOST, 2))
        } else {
            Some((syntax::BELOW, 1))
        },
        b'>' => if b == b'=' {
            Some((syntax::AT_LEAST, 2))
        } else {
            Some((syntax::ABOVE, 1))
        },
        b'+' => Some((syntax::PLUS, 1)),
        b'-' => Some((syntax::MINUS, 1)),
        b'&' => if b == b'&' {
            Some((syntax::AND_AND, 2))
        } else {
            None
        },
        b'|' => if b == b'|' {
            Some((syntax::OR_OR, 2))
        } else {
            None
        },
        _ => None,
    }
}

// The value of few enough digits.
fn value_of(part: &[u8]) -> u16
    requires { (length part.now ≤ most_digits) × (leading digit part.now ≡ length part.now) }
    ensures { result ≡ decimal 0 part.now }
{
    let mut n = 0;
    for &digit in part {
        n = n * 10 + u16::from(digit - b'0');
    }
    n
}

impl Step {
    // No token at a byte.
    fn none_at(start: usize) -> Self
        ensures { result ≡ step_of start nothing }
    {
        Step {
            token: Token::None,
            start,
            next: Cursor { at: start },
        }
    }

    fn found(token: Token, start: usize, end: usize) -> Self
        ensures { result ≡ step_to token start end }
    {
        Step {
            token,
            start,
            next: Cursor { at: end },
        }
    }
}

fn word_at(file: &[u8], start: usize) -> Step
    ensures { result ≡ step_of start (word_at (drop start file.now)) }
{
    let end = run_end(file, start, is_word_byte);
    if syntax::WORD_BYTES < end - start {
        Step::none_at(start)
    } else {
        Step::found(Token::Word(start, end), start, end)
    }
}

fn number_at(file: &[u8], start: usize) -> Step
    requires { start ≤ length file.now }
    ensures { result ≡ step_of start (number_at (drop start file.now)) }
{
    let end = run_end(file, start, is_digit);
    if syntax::NUMBER_DIGITS < end - start {
        Step::none_at(start)
    } else {
        Step::found(Token::Number(value_of(&file[start..end])), start, end)
    }
}

fn mark_at(file: &[u8], start: usize) -> Step
    requires { start < length file.now }
    ensures { result ≡ step_of start (mark_of marks (drop start file.now)) }
{
    let second = file.get(start + 1).copied().unwrap_or(0);
    match mark_of(file[start], second) {
        None => Step::none_at(start),
        Some((kind, bytes)) => Step::found(Token::Mark(kind), start, start + bytes),
    }
}

// The token that begins at a byte.
fn token_at(file: &[u8], start: usize) -> Step
    ensures { result ≡ step_of start (scanned (drop start file.now)) }
{
    let Some(&first) = file.get(start) else {
        return Step::none_at(start);
    };
    if first.is_ascii_alphabetic() {
        word_at(file, start)
    } else if is_digit(first) {
        number_at(file, start)
    } else {
        mark_at(file, start)
    }
}

impl Cursor {
    pub fn new() -> Self
        ensures { result.at ≡ 0 }
    {
        Cursor { at: 0 }
    }

    // The next token behind blanks.
    pub fn next(self, file: &[u8]) -> Step
        ensures { result ≡ step_at file.now self.at }
    {
        token_at(file, run_end(file, self.at, is_blank))
    }
}

impl<'a> Reader<'a> {
    // A reader of a file from a byte of it.
    pub fn open(file: &'a [u8], at: usize) -> Reader<'a>
        ensures { (result.file ≡ file.entry) × (result.at ≡ at) }
    {
        Reader { file, at }
    }

    // The next token behind blanks.
    pub fn token(self) -> Step
        ensures { result ≡ step_at self.entry.file.now self.entry.at }
    {
        Cursor { at: self.at }.next(self.file)
    }
}

// The next token behind blanks from a byte of a file, by a reader that is opened there: callers have plain parameters.
pub fn read_token(file: &[u8], at: usize) -> Step
    ensures { result ≡ step_at file.now at }
{
    Reader::open(file, at).token()
}
