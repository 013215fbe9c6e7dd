// One point of both machines' runs as bytes in a lent buffer: what both have in common once, and each machine's notices.
#![tactic(auto)]

ghost use Rattle.std.specs.Prelude.{◌≡◌, [], ◌∷◌, ℕ, ◌+◌, ◌<◌, ◌≤◌, length, get_or};
ghost use Rattle.syntax.specs.Limits.{most_vars};
ghost use Rattle.meaning.specs.Decide.Table.{for_each};
ghost use Rattle.threads.specs.Held.{place_of, places_of, turns_of};
ghost use Rattle.digits.specs.Written.{Writes};
ghost use Rattle.lines.specs.Written.{PutsLine};
ghost use Rattle.point.specs.Held.{region_part, due_part, idle_part, held_byte, held_set, held_value, held_each};
ghost use Rattle.point.specs.Held.{held_shared, held_notices, held_table, bytes_of};

use std::array;
use threads::{Place, Thread};

// The bytes of a point.
pub const POINT: usize = 49;

// A machine's notices, and those of them that are new.
#[derive(Clone, Copy)]
pub struct Notices {
    pub now: u16,
    pub told: u16,
}

// What is written of a point: the values, the places and the guards that hold, which both machines have in common; each
// machine's notices, and whether the table's is there; and the turns.
#[derive(Clone, Copy)]
pub struct Point {
    pub values: [u16; syntax::VARIABLES],
    pub places: [u8; machine::THREADS],
    pub guards: u16,
    pub plain: Notices,
    // Stays (interface): `put_point` promises what it writes for every byte here and all notices beside it.
    pub there: u8,
    pub table: Notices,
    pub turns: [u8; machine::THREADS],
}

// A place as three numbers that have no bit in common, so that a byte is made of it without a branch.
#[tactic(auto, unfolding(crate::specs::Held::region_part, threads::specs::Held::place_of))]
fn region_part(place: Place) -> u8
    ensures { result ≡ region_part (place_of place) }
{
    match place {
        Place::Idle => 0,
        Place::Waiting(r) | Place::Due(r) => r,
    }
}

#[tactic(auto, unfolding(crate::specs::Held::due_part, threads::specs::Held::place_of))]
fn due_part(place: Place) -> u8
    ensures { result ≡ due_part (place_of place) }
{
    match place {
        Place::Idle | Place::Waiting(_) => 0,
        Place::Due(_) => 16,
    }
}

#[tactic(auto, unfolding(crate::specs::Held::idle_part, threads::specs::Held::place_of))]
fn idle_part(place: Place) -> u8
    ensures { result ≡ idle_part (place_of place) }
{
    match place {
        Place::Idle => 255,
        Place::Waiting(_) | Place::Due(_) => 0,
    }
}

fn place_byte(place: Place) -> u8
    ensures { result ≡ held_byte (place_of place) }
{
    region_part(place) | due_part(place) | idle_part(place)
}

// The places of the threads, a byte each.
pub fn place_bytes(threads: [Thread; machine::THREADS]) -> [u8; machine::THREADS]
    ensures { (t : ℕ) → t < 16 → get_or result t 0 ≡ held_byte (places_of threads t) }
{
    array::from_fn(|t| place_byte(threads[t].place))
}

// The turns of the threads, a byte each.
pub fn turn_bytes(threads: [Thread; machine::THREADS]) -> [u8; machine::THREADS]
    ensures { (t : ℕ) → t < 16 → get_or result t 0 ≡ turns_of threads t }
{
    array::from_fn(|t| threads[t].turn)
}

// A set of sixteen, low byte first.
fn put_set(out: &mut [u8], at: usize, set: u16) -> usize
    requires { at + 2 ≤ length out.old }
    ensures { Writes (held_set set) out.old at result out.new }
{
    digits::put_bytes(out, at, &set.to_le_bytes())
}

// The values of the variables, each with 128 added.
fn put_values(out: &mut [u8], at: usize, values: [u16; syntax::VARIABLES]) -> usize
    requires { at + 6 ≤ length out.old }
    ensures { Writes (for_each most_vars 0 (held_value values)) out.old at result out.new }
{
    digits::put_bytes(out, at, &lines::value_bytes(values))
}

// A byte for each thread: its place, or its turn.
fn put_each(out: &mut [u8], at: usize, bytes: [u8; machine::THREADS]) -> usize
    requires { at + 16 ≤ length out.old }
    ensures { Writes (for_each 16 0 (held_each bytes)) out.old at result out.new }
{
    digits::put_bytes(out, at, &bytes)
}

// What both machines have in common: the values, the places, and the guards that hold.
fn put_shared(
    out: &mut [u8],
    at: usize,
    values: [u16; syntax::VARIABLES],
    bytes: [u8; machine::THREADS],
    guards: u16,
) -> usize
    requires { at + 24 ≤ length out.old }
    ensures { Writes (held_shared values bytes guards) out.old at result out.new }
{
    let one = put_values(out, at, values);
    let two = put_each(out, one, bytes);
    put_set(out, two, guards)
}

// A machine's notices, and those of them that are new.
fn put_notices(out: &mut [u8], at: usize, notices: Notices) -> usize
    requires { at + 4 ≤ length out.old }
    ensures { Writes (held_notices notices.now notices.told) out.old at result out.new }
{
    let next = put_set(out, at, notices.now);
    put_set(out, next, notices.told)
}

// The table's part: whether it is there, and its notices.
fn put_table(out: &mut [u8], at: usize, there: u8, notices: Notices) -> usize
    requires { at + 5 ≤ length out.old }
    ensures { Writes (held_table there notices.now notices.told) out.old at result out.new }
{
    let next = digits::put_bytes(out, at, &[there]);
    put_notices(out, next, notices)
}

// A point where there is room for it; else all is as it was.
pub fn put_point(out: &mut [u8], at: usize, point: &Point) -> usize
    ensures { PutsLine (bytes_of point.now) (at + 49 ≤ length out.old) out.old at result out.new }
{
    if !digits::has_room(out, at, POINT) {
        return at;
    }
    let one = put_shared(out, at, point.values, point.places, point.guards);
    let two = put_notices(out, one, point.plain);
    let three = put_table(out, two, point.there, point.table);
    put_each(out, three, point.turns)
}
