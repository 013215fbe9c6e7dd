// The draws of the load generator: each replaces a number of 32 bits, and its upper sixteen bits are used.
#![tactic(auto)]

ghost use Rattle.std.specs.Prelude.{◌≡◌};
ghost use Rattle.machine.specs.Load.{drawn, upper};

// The number that takes the place of another.
pub fn next(number: u32) -> u32
    ensures { result ≡ drawn number }
{
    number.wrapping_mul(1664525).wrapping_add(1013904223)
}

// What is used of a number.
pub fn upper_bits(number: u32) -> u32
    ensures { result ≡ upper number }
{
    number / 65536
}
