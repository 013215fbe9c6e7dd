// One digit of the formats, 0-9 or A-F; and what writing into a lent buffer is, with its laws.
#![tactic(auto)]

ghost use Rattle.std.specs.Prelude.{◌≡◌, ◌%◌, ◌+◌, ◌≤◌, ◌<◌, true, false, length};
ghost use Rattle.meaning.specs.Hex.{hex_digit};
ghost use Rattle.digits.specs.Written.{Writes};

// The digit of the lower four bits.
pub fn hex_digit(n: u8) -> u8
    ensures { result ≡ hex_digit (n % 16) }
{
    let low = n % 16;
    if low < 10 { low + 48 } else { low + 55 }
}

// Whether so many bytes fit into a buffer from a place on.
pub fn has_room(out: &[u8], at: usize, size: usize) -> bool
    ensures room { result ≡ true → at + size ≤ length out.now }
    ensures too_little { result ≡ false → length out.now < at + size }
{
    size <= out.len() && at <= out.len() - size
}

// Bytes put into a buffer from a place on, where there is room for them; the place behind them.
pub fn put_bytes(out: &mut [u8], at: usize, bytes: &[u8]) -> usize
    ensures written { at + length bytes.now ≤ length out.old → Writes bytes.now out.old at result out.new }
    ensures kept { length out.old < at + length bytes.now → (result ≡ at) × (out.new ≡ out.old) }
{
    if !has_room(out, at, bytes.len()) {
        return at;
    }
    let next = at + bytes.len();
    out[at..next].copy_from_slice(bytes);
    next
}
