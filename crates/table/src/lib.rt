// The lines of a table in a lent buffer, from its entries held as numbers.
#![tactic(auto)]

ghost use Rattle.std.specs.Prelude.{◌≡◌, ◌+◌, ◌*◌, ◌<◌, ◌≤◌, length};
ghost use Rattle.machine.specs.Limits.{most_regions, most_entries};
ghost use Rattle.meaning.specs.Decide.Table.{entry_line};
ghost use Rattle.digits.specs.Written.{over, Writes};
ghost use Rattle.table.specs.Written.{PutsTable};
ghost use Rattle.table.specs.Slices.{entry_by, line_at, lines_at, table_at};

// That a buffer is shorter than the table (10).
#[derive(Clone, Copy, Debug, PartialEq, Eq)]
pub struct TooShort;

// Bytes in a line, with its 0A.
const LINE: usize = 9;

// How many of a region's entries stand: a line of nine bytes each.
fn count_region(entries: &[u8; machine::ENTRIES], guards: usize, r: usize) -> usize
    requires { (guards ≤ most_regions) × (r < most_regions) }
    ensures { (result * 9 ≡ length (lines_at entries.now guards r)) × (result ≤ guards) }
{
    let from = r * machine::REGIONS;
    let codes = &entries[from..from + guards];
    codes.iter().filter(|code| **code != 0).count()
}

// How many entries stand.
fn count(entries: &[u8; machine::ENTRIES], regions: usize, guards: usize) -> usize
    requires { (regions ≤ most_regions) × (guards ≤ most_regions) }
    ensures { (result * 9 ≡ length (table_at entries.now regions guards)) × (result ≤ most_entries) }
{
    let mut n = 0;
    for r in 0..regions {
        n += count_region(entries, guards, r);
    }
    n
}

// A line of the table at a place of the buffer.
fn write_line(table: &mut [u8], at: usize, r: usize, g: usize, code: u8)
    requires { (at + 9 ≤ length table.old) × (r < most_regions) × (g < most_regions) × (0 < code) }
    ensures { table.new ≡ over table.old at (entry_line r g (entry_by code)) }
{
    let line = [
        b'0',
        digits::hex_digit(r as u8),
        b'0',
        digits::hex_digit(g as u8),
        b'0',
        b'0' + code / 2 % 2,
        b'0',
        b'0' + code / 4 % 2,
        b'\n',
    ];
    table[at..at + LINE].copy_from_slice(&line);
}

// The line of a region and a guard, where their entry stands, at a place of the buffer; the place behind it.
fn write_entry(
    entries: &[u8; machine::ENTRIES],
    r: usize,
    g: usize,
    table: &mut [u8],
    at: usize,
) -> usize
    requires { (at + length (line_at entries.now r g) ≤ length table.old) × (r < most_regions) ×
        (g < most_regions) }
    ensures { Writes (line_at entries.now r g) table.old at result table.new }
{
    let code = entries[r * machine::REGIONS + g];
    if code == 0 {
        return at;
    }
    write_line(table, at, r, g, code);
    at + LINE
}

// The lines of a region from a place of the buffer on; the place behind them.
fn write_region(
    entries: &[u8; machine::ENTRIES],
    guards: usize,
    r: usize,
    table: &mut [u8],
    at: usize,
) -> usize
    requires { (at + length (lines_at entries.now guards r) ≤ length table.old) × (guards ≤ most_regions)
        × (r < most_regions) }
    ensures { Writes (lines_at entries.now guards r) table.old at result table.new }
{
    let mut next = at;
    for g in 0..guards {
        next = write_entry(entries, r, g, table, next);
    }
    next
}

// The lines of the entries, by region and then guard; the table's length. A buffer that is too short is left as it is, and so is one
// for more regions or guards than there can be. `proofs/Monitors.antt` shows that the lines are the table's of a
// monitor that has these entries.
pub fn write_table(
    entries: &[u8; machine::ENTRIES],
    regions: usize,
    guards: usize,
    table: &mut [u8],
) -> Result<usize, TooShort>
    ensures { PutsTable entries.now regions guards table.old result table.new }
{
    if regions > machine::REGIONS || guards > machine::REGIONS {
        return Err(TooShort);
    }
    let size = count(entries, regions, guards) * LINE;
    if table.len() < size {
        return Err(TooShort);
    }
    let mut at = 0;
    for r in 0..regions {
        at = write_region(entries, guards, r, table, at);
    }
    Ok(size)
}
