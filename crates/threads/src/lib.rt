// All sixteen threads: where each is, its turn among those who wait, and the queue of these by arrival. A thread begins to wait,
// behind all who wait; a thread goes on, and those behind it close up. Nothing else changes threads.
#![tactic(auto)]

ghost use Rattle.std.specs.Prelude.{◌≡◌, false, ℕ, ◌-◌, ◌<◌};
ghost use Rattle.machine.specs.Monitor.{SameThreads, idle_threads};
ghost use Rattle.machine.specs.Queue.{place_in};
ghost use Rattle.machine.specs.Arrival.{Once};
ghost use Rattle.machine.specs.Decide.Step.{is_due, is_waiting, begin_wait, leave as leave_to};
ghost use Rattle.queue.specs.Packed.{queue_of};
ghost use Rattle.threads.specs.Held.{place_of, places_of, turns_of, threads_of, Turned, Queued, Puts, between};

// Where a thread is: idle, waiting at a region, or due at a region.
#[derive(Clone, Copy, PartialEq, Eq)]
pub enum Place {
    Idle,
    Waiting(u8),
    Due(u8),
}

impl Place {
    #[tactic(auto, unfolding(crate::specs::Held::place_of, machine::specs::Decide::Step::is_due))]
    pub fn is_due(self) -> bool
        ensures { result ≡ is_due (place_of self) }
    {
        matches!(self, Place::Due(_))
    }

    #[tactic(auto, unfolding(crate::specs::Held::place_of, machine::specs::Decide::Step::is_waiting))]
    pub fn is_waiting(self) -> bool
        ensures { result ≡ is_waiting (place_of self) }
    {
        matches!(self, Place::Waiting(_))
    }
}

// A thread: where it is, and how many of those who wait began before it; 0 where it does not wait.
#[derive(Clone, Copy, PartialEq, Eq)]
pub struct Thread {
    pub place: Place,
    pub turn: u8,
}

// All of them, and those who wait in one number, four bits each, the earliest lowest, with how many they are.
#[derive(Clone, Copy, PartialEq, Eq)]
pub struct Threads {
    pub each: [Thread; machine::THREADS],
    pub order: u64,
    pub waiting: u8,
}

impl Threads {
    // At the start all are idle.
    pub fn all_idle() -> Self
        ensures { SameThreads (threads_of result) idle_threads × Turned result }
    {
        Threads {
            each: [Thread {
                place: Place::Idle,
                turn: 0,
            }; machine::THREADS],
            order: 0,
            waiting: 0,
        }
    }

    // Thread t begins to wait at a region, behind all who wait.
    pub fn begin_wait(self, t: u8, region: u8) -> Self
        ensures { t < 16 → Queued self → Turned self → is_waiting (places_of self.each t) ≡ false
            → SameThreads (threads_of result) (begin_wait (threads_of self) t region) × Turned result }
    {
        Threads {
            each: put(
                self.each,
                usize::from(t % 16),
                Place::Waiting(region),
                self.waiting,
            ),
            order: queue::joined(self.order, self.waiting, t),
            waiting: self.waiting % 16 + 1,
        }
    }

    // Thread t goes on from a body, to a place where it does not wait; if it waited, those behind it close up.
    pub fn leave(self, t: u8, place: Place) -> Self
        ensures { t < 16 → Queued self → Turned self → is_waiting (place_of place) ≡ false
            → SameThreads (threads_of result) (leave_to (threads_of self) t (place_of place)) × Turned result × Queued result }
    {
        let at = usize::from(t % 16);
        let before = self.each[at];
        let each = put(self.each, at, place, 0);
        if !before.place.is_waiting() {
            return Threads { each, ..self };
        }
        let order = queue::left(self.order, before.turn);
        let waiting = self.waiting.saturating_sub(1);
        Threads {
            each: closed_up(each, order, before.turn, waiting),
            order,
            waiting,
        }
    }
}

// The threads with thread t replaced.
fn put(
    each: [Thread; machine::THREADS],
    t: usize,
    place: Place,
    turn: u8,
) -> [Thread; machine::THREADS]
    requires { t < 16 }
    ensures { Puts each t (place_of place) turn result }
{
    let mut next = each;
    next[t] = Thread { place, turn };
    next
}

// The turns of those in the queue from a place on, written anew; the others keep theirs.
fn closed_up(
    each: [Thread; machine::THREADS],
    order: u64,
    from: u8,
    waiting: u8,
) -> [Thread; machine::THREADS]
    ensures places { (u : ℕ) → u < 16 → places_of result u ≡ places_of each u }
    ensures turns { from < 16 → Once (queue_of order waiting) → (u : ℕ) → u < 16
        → turns_of result u ≡ between from waiting (place_in (queue_of order waiting) u) (turns_of each u) }
{
    let mut next = each;
    let mut rest = queue::behind(order, from);
    for k in from..waiting {
        let u = usize::from(queue::first(rest));
        let place = next[u].place;
        next[u] = Thread { place, turn: k };
        rest /= 16;
    }
    next
}
