// The queue of those who wait in one number: four bits a thread, the earliest lowest. Who stands first, what stands behind
// the first so many, one more thread behind them, and one thread less, with the others closed up.
#![tactic(auto)]

ghost use Rattle.std.specs.Prelude.{◌≡◌, ◌%◌, ◌<◌};
ghost use Rattle.queue.specs.Packed.{behind_of, joined_to, left_by};

// The thread that stands first.
pub fn first(order: u64) -> u8
    ensures { result ≡ order % 16 }
{
    (order % 16) as u8
}

// What stands behind the first so many.
pub fn behind(order: u64, count: u8) -> u64
    ensures { count < 16 → result ≡ behind_of order count }
{
    order >> (count % 16) as u32 * 4
}

// The first so many, with one more thread behind them.
pub fn joined(order: u64, count: u8, t: u8) -> u64
    ensures { count < 16 → t < 16 → result ≡ joined_to order count t }
{
    let shift = (count % 16) as u32 * 4;
    let above = order >> shift;
    order - (above << shift) + (((t % 16) as u64) << shift)
}

// All but the one at a place: those behind it close up.
pub fn left(order: u64, turn: u8) -> u64
    ensures { turn < 16 → result ≡ left_by order turn }
{
    let shift = (turn % 16) as u32 * 4;
    let above = order >> shift;
    order - (above << shift) + (above / 16 << shift)
}
