// Sets of sixteen threads or guards as the bits of a number: members, one more or less, how many, the lowest, those that
// another lacks, and those below a number.
#![tactic(auto)]

ghost use Rattle.std.specs.Prelude.{◌≡◌, true, not, ◌&&◌, ◌||◌, ℕ, ◌<◌, ◌≤◌, eqb, ltb};
ghost use Rattle.sets.specs.Set.{member, size};

pub fn has(set: u16, t: u32) -> bool
    ensures { result ≡ member set t }
{
    if t < 16 { set >> t & 1 == 1 } else { false }
}

pub fn with(set: u16, t: u32) -> u16
    ensures { (u : ℕ) → member result u ≡ (eqb u t && ltb t 16) || member set u }
{
    if t < 16 { set | 1 << t } else { set }
}

pub fn without(set: u16, t: u32) -> u16
    ensures { (u : ℕ) → member result u ≡ not (eqb u t) && member set u }
{
    if has(set, t) { set ^ 1 << t } else { set }
}

pub fn union(a: u16, b: u16) -> u16
    ensures { (u : ℕ) → member result u ≡ member a u || member b u }
{
    a | b
}

pub fn both(a: u16, b: u16) -> u16
    ensures { (u : ℕ) → member result u ≡ member a u && member b u }
{
    a & b
}

// How many members a set has: its count of ones.
pub fn count(set: u16) -> u32
    ensures { result ≡ size set 16 }
{
    u16::count_ones(set)
}

// The lowest member, by trailing zeros; 16 where there is none.
pub fn lowest(set: u16) -> u32
    ensures least { (u : ℕ) → u < result → member set u ≡ true → ⊥ }
    ensures found { result < 16 → member set result ≡ true }
    ensures within { result ≤ 16 }
{
    u16::trailing_zeros(set)
}

// The members of one set that another lacks.
pub fn minus(a: u16, b: u16) -> u16
    ensures { (u : ℕ) → member result u ≡ member a u && not (member b u) }
{
    a ^ a & b
}

// The members below a number.
pub fn below(set: u16, n: usize) -> u16
    ensures { (u : ℕ) → u < 16 → member result u ≡ member set u && ltb u n }
{
    if n < 16 {
        set & (1 << n as u32) - 1
    } else {
        set
    }
}
