// Who waits on a guard, along the queue: those ahead of a waiter in its line, and whom a body notifies anew on both machines.
#![tactic(auto)]

ghost use Rattle.std.specs.Prelude.{◌≡◌, ◌||◌, ℕ, ◌<◌};
ghost use Rattle.sets.specs.Set.{member};
ghost use Rattle.machine.specs.Monitor.{on_guard, waits_on};
ghost use Rattle.machine.specs.Queue.{has, those};
ghost use Rattle.queue.specs.Packed.{queue_of};
ghost use Rattle.threads.specs.Held.{place_of, places_of, threads_of, Queued};
ghost use Rattle.waiters.specs.Slices.{guard_at, guards_only};
ghost use Rattle.waiters.specs.Told.{becomes_at, on_one, told_behind, new_first};

use machine::StateNumber;
use threads::{Place, Threads};

// What is held of each machine: of the plain one, and of the table's.
#[derive(Clone, Copy, PartialEq, Eq)]
pub struct PerMachine<T> {
    pub plain: T,
    pub table: T,
}

impl<T: Copy> PerMachine<T> {
    // The same of both.
    pub fn alike(of: T) -> Self
        ensures { (result.plain ≡ of) × (result.table ≡ of) }
    {
        PerMachine {
            plain: of,
            table: of,
        }
    }
}

// The guard of a region.
#[tactic(auto, unfolding(crate::specs::Slices::guard_at))]
pub fn guard_at(guard_of: &[u8; machine::REGIONS], region: u8) -> u8
    ensures { result ≡ guard_at guard_of.now region }
{
    guard_of[(region % machine::REGION_END) as usize] % machine::REGION_END
}

// Whether a thread at a place waits on a guard.
#[tactic(auto, unfolding(threads::specs::Held::place_of, machine::specs::Monitor::on_guard))]
fn waits_on(place: Place, guard_of: &[u8; machine::REGIONS], guard: u8) -> bool
    ensures { result ≡ on_guard (guards_only guard_of.now) guard (place_of place) }
{
    matches!(place, Place::Waiting(w) if guard_at(guard_of, w) == guard)
}

// Those of the first so many in the queue who wait on a guard, as a set.
pub fn line_ahead(threads: Threads, turn: u8, guard_of: &[u8; machine::REGIONS], guard: u8) -> u16
    ensures { (u : ℕ) → u < 16 → member result u
        ≡ has (those (waits_on (guards_only guard_of.now) (threads_of threads) guard)
        (queue_of threads.order turn)) u }
{
    let mut set: u16 = 0;
    let mut order = threads.order;
    for _ in 0..turn {
        let u = queue::first(order);
        if waits_on(threads.each[u as usize].place, guard_of, guard) {
            set = sets::with(set, u as u32);
        }
        order /= 16;
    }
    set
}

// Whether a thread at a place waits on one of a set of guards.
#[tactic(auto, unfolding(threads::specs::Held::place_of, crate::specs::Told::on_one))]
fn waits_on_one(place: Place, guard_of: &[u8; machine::REGIONS], guards: u16) -> bool
    ensures { result ≡ on_one guard_of.now (member guards) (place_of place) }
{
    matches!(place, Place::Waiting(w) if sets::has(guards, guard_at(guard_of, w) as u32))
}

// Whether an entry of a region tells a waiter at a place whose guard the body has made true: a broadcast tells all, a signal
// the first, on whose guard none of those ahead waits.
#[tactic(auto, unfolding(threads::specs::Held::place_of, crate::specs::Told::told_behind, crate::specs::Told::broadcast_at))]
fn is_told(
    place: Place,
    guard_of: &[u8; machine::REGIONS],
    entries: &[u8; machine::ENTRIES],
    region: u8,
    met: u16,
) -> bool
    ensures { result ≡ told_behind guard_of.now entries.now region met (place_of place) }
{
    let Place::Waiting(w) = place else {
        return false;
    };
    let guard = guard_at(guard_of, w);
    let code = entries[(region % machine::REGION_END) as usize * machine::REGIONS
        + (guard % machine::REGION_END) as usize];
    code / 4 % 2 == 1 || !sets::has(met, guard as u32)
}

// The guards met so far, with that of a thread at a place.
#[tactic(auto, using(crate::proofs::Loops::guard_one), unfolding(threads::specs::Held::place_of, machine::specs::Monitor::on_guard))]
fn met_with(met: u16, place: Place, guard_of: &[u8; machine::REGIONS]) -> u16
    ensures { (g : ℕ) → member result g ≡ on_guard (guards_only guard_of.now) g (place_of place) || member met g }
{
    match place {
        Place::Waiting(w) => sets::with(met, guard_at(guard_of, w) as u32),
        _ => met,
    }
}

// The guards that a body has made true, by the states before and after it.
#[tactic(auto, unfolding(crate::specs::Slices::holds_at, crate::specs::Told::becomes_at))]
pub fn made_true(holds: &[u16; machine::STATES], from: StateNumber, to: StateNumber) -> u16
    ensures { (g : ℕ) → member result g ≡ becomes_at holds.now from to g }
{
    sets::minus(
        holds[(to % machine::STATE_END) as usize],
        holds[(from % machine::STATE_END) as usize],
    )
}

// Whom a body notifies anew, where it has made some guards true: on the plain machine every waiter on one of these, on the
// table's those whom the entries of the region tell; the first waiter on each guard is the first that is met in the queue.
pub fn told(
    threads: Threads,
    guard_of: &[u8; machine::REGIONS],
    newly: u16,
    entries: &[u8; machine::ENTRIES],
    region: u8,
) -> PerMachine<u16>
    ensures { Queued threads → (u : ℕ) → u < 16
        → (member result.plain u ≡ on_one guard_of.now (member newly) (places_of threads.each u))
        × (member result.table u ≡ new_first guard_of.now entries.now (member newly)
        (threads_of threads) region u (places_of threads.each u)) }
{
    let mut plain: u16 = 0;
    let mut table: u16 = 0;
    if newly == 0 {
        return PerMachine { plain, table };
    }
    let mut met: u16 = 0;
    let mut rest = threads.order;
    for _ in 0..threads.waiting {
        let u = queue::first(rest);
        let place = threads.each[u as usize].place;
        if waits_on_one(place, guard_of, newly) {
            plain = sets::with(plain, u as u32);
            if is_told(place, guard_of, entries, region, met) {
                table = sets::with(table, u as u32);
            }
            met = met_with(met, place, guard_of);
        }
        rest /= 16;
    }
    PerMachine { plain, table }
}
