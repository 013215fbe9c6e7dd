// Reading into a lent buffer until it is full, the input ends or a read fails. What a file or a terminal gives no
// contract can say; proved is how many bytes stand at the buffer's start, that those before a place are kept, and that the
// others are what the reader gave, to its end unless the buffer is full.
#![tactic(auto)]

ghost use Rattle.std.specs.Prelude.{ℕ, List, [], ◌++◌, IsOk, ◌<◌, min, ◌≡◌, length, take, drop, IfOk};
ghost use Rattle.std.specs.Io.KnownBytes.{Consumes, IsAtEnd};
ghost use Rattle.std.proofs.Math.Seq.{paste};
ghost use Rattle.io.specs.Counts.{IsPrefixLen};
ghost use Rattle.input.specs.Kept.{Keeps};
ghost use Rattle.input.specs.Opened.{Has};
ghost use Rattle.input.specs.Counted.{counted};

use std::io::{Cursor, ErrorKind, Read, Write};
use std::{io, str};

// A read that failed: how many bytes stand at the buffer's start all the same, and why.
#[derive(Clone, Copy, Debug)]
pub struct Stopped {
    pub count: usize,
    pub why: io::Error,
}

impl From<Stopped> for io::Error {
    ghost from_gives = { λ stopped e. e ≡ stopped.why };

    fn from(stopped: Stopped) -> io::Error {
        stopped.why
    }
}

// Reads on behind the first `from` bytes of the buffer: how many bytes stand at its start.
pub fn read_on<R: Read>(reader: &mut R, buf: &mut [u8], from: usize) -> Result<usize, Stopped>
    ensures prefix_len { IsPrefixLen (counted result) buf.new }
    ensures keeps { Keeps from buf.old (counted result) buf.new }
    ensures bytes { Consumes (R.remaining reader.old) (R.remaining reader.new)
        (drop from (take (counted result) buf.new)) }
    ensures ended { IfOk result (λ n. n < length buf.new → IsAtEnd (R.remaining reader.new)) }
{
    let mut done = from.min(buf.len());
    while done < buf.len() {
        match reader.read(&mut buf[done..]) {
            Ok(0) => break,
            Ok(more) => done += more,
            Err(why) => return Err(Stopped { count: done, why }),
        }
    }
    Ok(done)
}

// Reads what was opened, from the buffer's start. What is missing reads as empty; any other reason for which it was not
// opened is a failure.
pub fn read_opened<R: Read>(opened: &mut io::Result<R>, buf: &mut [u8]) -> Result<usize, Stopped>
    ensures prefix_len { IsPrefixLen (counted result) buf.new }
    ensures bytes { (xs : List ℕ) → Has R.remaining opened.old xs → IfOk result (λ n.
        (rest : List ℕ) × (xs ≡ take n buf.new ++ rest) × Has R.remaining opened.new rest
        × (n < length buf.new → rest ≡ [])) }
    ensures opened { 0 < counted result → IsOk opened.new }
{
    match opened {
        Ok(reader) => read_on(reader, buf, 0),
        Err(e) if e.kind() == ErrorKind::NotFound => Ok(0),
        Err(e) => Err(Stopped { count: 0, why: *e }),
    }
}

// Copies as many bytes as both have from the start of one slice to the start of another, and says how many.
pub fn copy(from: &[u8], to: &mut [u8]) -> usize
    ensures count { result ≡ min (length from.now) (length to.old) }
    ensures pasted { to.new ≡ paste to.old 0 from.now result }
{
    let n = from.len().min(to.len());
    to[..n].copy_from_slice(&from[..n]);
    n
}

// Writes a line to standard error: what failed, as the caller names it, a colon and why, without the number that std
// puts behind.
pub fn fail<R: Eprint>(rt: &R, what: &str, why: io::Error) {
    let mut text = Cursor::new([0u8; 256]);
    let _ = write!(text, "{why}");
    let end = (text.position() as usize).min(256);
    let words = str::from_utf8(&text.get_ref()[..end]).map_or("", before_number);
    let _ = eprintln!(rt; "{what}: {words}");
}

fn before_number(text: &str) -> &str {
    text.split_once(" (os error ")
        .map_or(text, |(words, _)| words)
}
