// What is held of a file's states, looked up by their numbers.
#![tactic(auto)]

ghost use Rattle.std.specs.Prelude.{◌≡◌, get_or};

use machine::StateNumber;

// The outcome of a body that leaves a range: no state's number.
pub const FAULT: StateNumber = machine::STATE_END;

// What a slice has for a state, and past its end what is handed for that.
pub fn at<T: Copy>(xs: &[T], s: StateNumber, past: T) -> T
    ensures { result ≡ get_or xs.now s past }
{
    match xs.get(usize::from(s)) {
        Some(x) => *x,
        None => past,
    }
}
