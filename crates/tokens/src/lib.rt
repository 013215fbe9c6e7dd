// The tokens of a whole file as numbers in lent arrays, token by token from `scanner`'s reader.
#![tactic(auto)]

ghost use Rattle.std.specs.Prelude.{◌≡◌, [], ◌∷◌, ◌+◌, ◌-◌, ◌≤◌, take, drop, length, position};
ghost use Rattle.std.specs.Str.{bytes_eq};
ghost use Rattle.syntax.specs.Decide.Scan.{word_of};
ghost use Rattle.syntax.specs.Limits.{most_bytes, most_word_bytes};
ghost use Rattle.syntax.specs.Token.{keywords};
ghost use Rattle.tokens.specs.Coded.{key_of, lexeme_code, Within, code_of, Scans};

use scanner::{Cursor, Step, Token};

// Why a file has no tokens: it is too long (1), or a byte begins none (2), and which is the first.
#[derive(Debug, Clone, Copy, PartialEq, Eq)]
pub enum ScanError {
    TooLong,
    NoToken(usize),
}

// How a token is held: its kind, with a number's value or a name's length.
#[derive(Clone, Copy)]
struct Code {
    kind: u8,
    value: u16,
}

// The reserved words in the order of their numbers.
const KEYWORDS: [&[u8]; 12] = [
    b"monitor",
    b"var",
    b"in",
    b"keep",
    b"method",
    b"waituntil",
    b"if",
    b"else",
    b"true",
    b"false",
    b"try",
    b"mod",
];

// The number of the first of some words that a part of the file is.
fn place_of(part: &[u8], words: &[&[u8]]) -> Option<usize>
    ensures { result ≡ position (λ k. bytes_eq k.now part.now) words.now }
{
    words.iter().position(|word| *word == part)
}

// The number of the reserved word that a part of the file is.
fn keyword_of(part: &[u8]) -> Option<usize>
    ensures { result ≡ key_of (word_of keywords part.now) }
{
    place_of(part, &KEYWORDS)
}

// How a word of the file is held.
fn word_code(file: &[u8], from: usize, end: usize) -> Code
    requires { (from ≤ end) × (end ≤ length file.now) × (end ≤ from + most_word_bytes) }
    ensures { result ≡ lexeme_code (word_of keywords (take (end - from) (drop from file.now))) }
{
    match keyword_of(&file[from..end]) {
        Some(key) => Code {
            kind: syntax::FIRST_KEYWORD + key as u8,
            value: 0,
        },
        None => Code {
            kind: syntax::NAME,
            value: (end - from) as u16,
        },
    }
}

// How a token is held: its kind, and a number's value or a name's length.
fn code_of(file: &[u8], token: Token) -> Code
    requires { Within file.now token }
    ensures { result ≡ code_of file.now token }
{
    match token {
        Token::Word(from, end) => word_code(file, from, end),
        Token::Number(value) => Code {
            kind: syntax::NUMBER,
            value,
        },
        Token::Mark(mark) => Code {
            kind: mark,
            value: 0,
        },
        Token::None => Code { kind: 0, value: 0 },
    }
}

// The tokens of a file, into slices that are long enough.
fn scan_into(
    file: &[u8],
    kinds: &mut [u8],
    values: &mut [u16],
    places: &mut [u16],
) -> Result<usize, ScanError>
    requires { (length kinds.old ≡ most_bytes) × (length values.old ≡ most_bytes) × (length places.old
        ≡ most_bytes) }
    ensures { Scans file.now result kinds.old values.old places.old
        kinds.new values.new places.new }
{
    if syntax::FILE_BYTES < file.len() {
        return Err(ScanError::TooLong);
    }
    let mut cursor = Cursor::new();
    for n in 0..syntax::FILE_BYTES {
        let Step { token, start, next } = scanner::read_token(file, cursor.at);
        if next.at == start {
            if start < file.len() {
                return Err(ScanError::NoToken(start));
            }
            return Ok(n);
        }
        let code = code_of(file, token);
        kinds[n] = code.kind;
        values[n] = code.value;
        places[n] = start as u16;
        cursor = next;
    }
    Ok(syntax::FILE_BYTES)
}

// The tokens of a file, and how many there are: each token's kind, a number's value or a name's length, and its place.
pub fn scan(
    file: &[u8],
    kinds: &mut [u8; syntax::FILE_BYTES],
    values: &mut [u16; syntax::FILE_BYTES],
    places: &mut [u16; syntax::FILE_BYTES],
) -> Result<usize, ScanError>
    ensures { Scans file.now result kinds.old values.old places.old
        kinds.new values.new places.new }
{
    scan_into(file, kinds, values, places)
}
