// The frames that the plain machine allows at a point of a run, rechecks left out, by thread and then region: how many there are,
// and the one at a draw, read off the record without a list of them.
#![tactic(auto)]

ghost use Rattle.std.specs.Prelude.{◌≡◌, ◌&&◌, List, [], ℕ, ◌≤◌, ◌<◌, get_or};
ghost use Rattle.sets.specs.Set.{member};
ghost use Rattle.machine.specs.Monitor.{Monitor, Config, waiting};
ghost use Rattle.machine.specs.Held.{Held, HeldPlaces};
ghost use Rattle.machine.specs.Decide.Step.{next};
ghost use Rattle.machine.specs.Decide.Load.{allowed_frames};
ghost use Rattle.threads.specs.Held.{place_of, places_of, threads_of, Queued};
ghost use Rattle.waiters.specs.Slices.{guard_at, holds_at, guards_only};
ghost use Rattle.waiters.specs.Told.{new_first};
ghost use Rattle.allowed.specs.Offered.{sum_each, offered_by, offered_at, region_by, Picks, HeldMethods, PlainAt, Chooses};

use machine::StateNumber;
use stepper::{Frame, Run};
use threads::{Place, Thread};

// The first regions of the methods: how many, and each.
// Stays (interface): an array with its count beside it, since a library crate has no heap (a rule of the project).
#[derive(Clone, Copy)]
pub struct Methods {
    pub count: u8,
    pub first: [u8; machine::REGIONS],
}

// A thread, and a region for it.
#[derive(Clone, Copy)]
struct Spot {
    thread: u8,
    region: u8,
}

// The regions that begin a method.
pub fn methods_of(begins: &[u8; machine::REGIONS], regions: usize) -> Methods
    ensures { (m : Monitor) (goes_on : List ℕ) → m.regions ≡ regions → regions ≤ 16
        → HeldPlaces m begins.now goes_on → HeldMethods m result }
{
    let mut first = [0u8; machine::REGIONS];
    let mut count: u8 = 0;
    for r in 0..machine::REGION_END {
        let at = usize::from(r);
        if (at < regions) & (begins[at] == 1) {
            first[usize::from(count)] = r;
            count += 1;
        }
    }
    Methods { count, first }
}

// The frame of a thread at a region, with the one flag that can be allowed.
fn frame_at(
    state: StateNumber,
    spot: Spot,
    holds: &[u16; machine::STATES],
    guard_of: &[u8; machine::REGIONS],
) -> Frame
    ensures { (result.thread ≡ spot.thread) × (result.region ≡ spot.region)
        × (result.flag ≡ holds_at holds.now (guard_at guard_of.now spot.region) state) }
{
    let Spot { thread, region } = spot;
    Frame {
        thread,
        region,
        flag: stepper::holds_at(holds, waiters::guard_at(guard_of, region), state),
    }
}

// How many frames a thread at a place has where nobody is due: an idle one may enter each method, a waiter may resume if it is
// the first on a guard that holds.
fn offered(place: Place, front: bool, methods: u8) -> u8
    ensures { result ≡ offered_by (place_of place) front methods }
{
    match place {
        Place::Idle => methods,
        Place::Waiting(_) => u8::from(front),
        Place::Due(_) => 0,
    }
}

// The region of a thread's frame at an index.
fn region_at(place: Place, index: usize, first: [u8; machine::REGIONS]) -> u8
    ensures { result ≡ region_by (place_of place) index first }
{
    match place {
        Place::Idle => first[index % machine::REGIONS],
        Place::Waiting(w) => w,
        Place::Due(w) => w,
    }
}

// What threads may do where nobody is due: the first n of them, the methods that an idle one may enter, and the waiters that
// may resume.
#[derive(Clone, Copy)]
struct Offers {
    each: [Thread; machine::THREADS],
    n: u8,
    methods: Methods,
    fronts: u16,
    ghost few: { n ≤ 16 },
}

impl Offers {
    // How many frames a thread has.
    fn of(&self, t: u8) -> usize
        requires { t < 16 }
        ensures offers { result ≡ offered_at self.now.each self.now.methods.count self.now.fronts t }
        ensures small { result < 256 }
    {
        let place = self.each[usize::from(t)].place;
        usize::from(offered(
            place,
            sets::has(self.fronts, u32::from(t)),
            self.methods.count,
        ))
    }

    // How many all have.
    fn count(&self) -> usize
        ensures { result ≡ sum_each self.now.n (offered_at self.now.each self.now.methods.count self.now.fronts) }
    {
        let mut sum: usize = 0;
        for t in 0..self.n {
            sum += self.of(t);
        }
        sum
    }

    // The frame at an index: those of the threads before are passed over.
    fn pick(&self, index: usize) -> Option<Spot>
        ensures { index < sum_each self.now.n (offered_at self.now.each self.now.methods.count self.now.fronts)
            → Picks self.now.each self.now.n self.now.methods.count self.now.methods.first self.now.fronts index result }
    {
        let mut left = index;
        for t in 0..self.n {
            let here = self.of(t);
            if left < here {
                let place = self.each[usize::from(t)].place;
                return Some(Spot {
                    thread: t,
                    region: region_at(place, left, self.methods.first),
                });
            }
            left -= here;
        }
        None
    }
}

// The waiters that may resume: the first on each guard that holds.
fn fronts_of(
    run: Run,
    holds: &[u16; machine::STATES],
    guard_of: &[u8; machine::REGIONS],
    no_entries: &[u8; machine::ENTRIES],
) -> u16
    ensures { Queued run.threads → ((i : ℕ) → get_or no_entries.now i 0 ≡ 0) → (u : ℕ) → u < 16
        → (w : ℕ) → places_of run.threads.each u ≡ waiting w
        → member result u ≡ holds_at holds.now (guard_at guard_of.now w) run.state
        && next (guards_only guard_of.now) (threads_of run.threads) (guard_at guard_of.now w) u }
{
    let holding = holds[usize::from(run.state % machine::STATE_END)];
    let told = waiters::told(run.threads, guard_of, holding, no_entries, 0);
    told.table
}

// The frame that a draw takes, of those allowed to the first n threads. Only the thread of the last frame can be due, and
// while it is, only its frame is allowed.
pub fn choose(
    run: Run,
    last: u8,
    n: u8,
    draw: u32,
    methods: Methods,
    holds: &[u16; machine::STATES],
    guard_of: &[u8; machine::REGIONS],
    no_entries: &[u8; machine::ENTRIES],
) -> Option<Frame>
    ensures { (m : Monitor) (c : Config) (kept after : List ℕ)
        → Held m kept holds.now after guard_of.now → HeldMethods m methods
        → ((i : ℕ) → get_or no_entries.now i 0 ≡ 0) → n ≤ 16 → PlainAt m n run last c
        → Chooses (allowed_frames m n c) draw result }
{
    let each = run.threads.each;
    let place = each[usize::from(last % machine::THREAD_END)].place;
    let first = methods.first;
    if place.is_due() {
        let spot = Spot {
            thread: last,
            region: region_at(place, 0, first),
        };
        return Some(frame_at(run.state, spot, holds, guard_of));
    }
    let fronts = fronts_of(run, holds, guard_of, no_entries);
    let known = n.min(machine::THREAD_END);
    let offers = Offers {
        each,
        n: known,
        methods,
        fronts,
    };
    let all = offers.count();
    if all == 0 {
        return None;
    }
    let spot = offers.pick(draw as usize % all)?;
    Some(frame_at(run.state, spot, holds, guard_of))
}
