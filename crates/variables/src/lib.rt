// The variables of a file: their bounds and start values from its tokens (7), and states as values and as numbers.
// Values are held with 128 added, states' numbers in sixteen bits.
#![tactic(auto)]

ghost use Rattle.std.specs.Prelude.{◌≡◌, ◌+◌, ◌-◌, ◌*◌, ◌^◌, ◌<◌, ◌≤◌, List, [], ◌++◌, length, drop, slice_index};
ghost use Rattle.syntax.specs.Limits.{most_bytes, most_vars};
ghost use Rattle.machine.specs.Limits.{most_states};
ghost use Rattle.syntax.specs.Token.{Lexeme};
ghost use Rattle.syntax.specs.Tree.{Var, each, spell_var};
ghost use Rattle.meaning.specs.State.{count};
ghost use Rattle.variables.specs.Bounded.{Numbers, EndsVars, Ranged, NumberOf, ValuesOf};
ghost use Rattle.meaning.specs.SixteenBits.{wrapped, share};
ghost use Rattle.variables.specs.Promises.{IntAt, TripleAt, Good, Fitting, WithVar, Loaded, SizeOf, Weights};
ghost use Rattle.variables.specs.Promises.{Weighed, DigitOf};

use machine::StateNumber;

// At most six variables: bounds, start values, and weights in a state's number; and the count of states.
#[derive(Clone, Copy)]
pub struct Bounds {
    pub lows: [u16; syntax::VARIABLES],
    pub highs: [u16; syntax::VARIABLES],
    pub starts: [u16; syntax::VARIABLES],
    pub weights: [u16; syntax::VARIABLES],
    pub count: usize,
    pub states: StateNumber,
}

// The variables, with the token behind them.
#[derive(Clone, Copy)]
pub struct Declared {
    pub bounds: Bounds,
    pub next: usize,
}

// The token of the first variable with a bad range (7).
#[derive(Clone, Copy, Debug, PartialEq, Eq)]
pub struct BadRange {
    pub token: usize,
}

// The token at which a file's variables begin: behind `monitor NAME {`.
pub const FIRST: usize = 3;

// How many tokens behind `var` a variable's start value begins: `var NAME =`.
const TO_START: usize = 3;

// One token: the minus of a number, and what stands behind an integer of a variable, `in`, `..` or `;`.
const MARK: usize = 1;

// How many tokens an integer has, without a minus and with one.
const PLAIN: usize = 1;

const NEGATED: usize = 2;

// What is added to an integer so that it is never below 0.
const OFFSET: u32 = 65536;

// -128 and 127, with that added.
const LOWEST: u32 = 65408;

const HIGHEST: u32 = 65663;

// An integer with 65,536 added, and the token behind it.
#[derive(Clone, Copy)]
struct Integer {
    value: u32,
    next: usize,
}

// The start value and the bounds of a variable, each with 65,536 added, and the token behind it.
#[derive(Clone, Copy)]
struct Triple {
    start: u32,
    low: u32,
    high: u32,
    next: usize,
}

// The kind of a token, 0 past the end.
fn kind_at(kinds: &[u8], at: usize) -> u8
    ensures { result ≡ slice_index kinds.now at }
{
    kinds.get(at).copied().unwrap_or(0)
}

// The value of a token, 0 past the end.
fn value_at(values: &[u16], at: usize) -> u16
    ensures { result ≡ slice_index values.now at }
{
    values.get(at).copied().unwrap_or(0)
}

// The integer that begins at a token.
fn int_at(kinds: &[u8], values: &[u16], at: usize) -> Integer
    requires { at < 2 ^ 63 + 16 }
    ensures { IntAt kinds.now values.now at result }
{
    if kind_at(kinds, at) == syntax::MINUS {
        Integer {
            value: OFFSET - u32::from(value_at(values, at + MARK)),
            next: at + NEGATED,
        }
    } else {
        Integer {
            value: OFFSET + u32::from(value_at(values, at)),
            next: at + PLAIN,
        }
    }
}

// The variable that begins at a token: var NAME = start in low .. high ;
fn triple_at(kinds: &[u8], values: &[u16], at: usize) -> Triple
    requires { at < 2 ^ 63 }
    ensures { TripleAt kinds.now values.now at result }
{
    let start = int_at(kinds, values, at + TO_START);
    let low = int_at(kinds, values, start.next + MARK);
    let high = int_at(kinds, values, low.next + MARK);
    Triple {
        start: start.value,
        low: low.value,
        high: high.value,
        next: high.next + MARK,
    }
}

impl Triple {
    // Whether the bounds and the start value are good and leave at most 4,096 states.
    fn fits(self, states: StateNumber) -> bool
        ensures { Fitting states self result }
    {
        LOWEST <= self.low
            && self.low <= self.start
            && self.start <= self.high
            && self.high <= HIGHEST
            && states <= machine::STATE_END / ((self.high - self.low) as u16 + 1)
    }
}

// No variables: slots without a variable have an empty range, and 0 as their start value.
pub fn no_bounds() -> Bounds
    ensures { Loaded [] result }
{
    Bounds {
        lows: [1u16; syntax::VARIABLES],
        highs: [0u16; syntax::VARIABLES],
        starts: [128u16; syntax::VARIABLES],
        weights: [1u16; syntax::VARIABLES],
        count: 0,
        states: 1,
    }
}

// How many values a range has. The remainder keeps the number small for any range.
pub fn size_of(low: u16, high: u16) -> u16
    ensures { SizeOf low high result }
{
    if low <= high {
        (high - low) % 4096 + 1
    } else {
        1
    }
}

// The weights of the variables: the count of states, divided by the size of each range in turn.
fn weights_of(
    lows: [u16; syntax::VARIABLES],
    highs: [u16; syntax::VARIABLES],
    count: usize,
    states: StateNumber,
) -> [u16; syntax::VARIABLES]
    requires { count ≤ most_vars }
    ensures { Weights lows highs count states result }
{
    let mut weights = [1u16; syntax::VARIABLES];
    let mut weight = states;
    for k in 0..count {
        weight /= size_of(lows[k], highs[k]);
        weights[k] = weight;
    }
    weights
}

impl Bounds {
    // One good variable more.
    fn with_var(self, v: Triple) -> Bounds
        requires good { Good self.states v }
        requires room { (self.count ≤ most_vars) × (self.states ≤ most_states) }
        ensures { WithVar self v result }
    {
        let mut next = self;
        let at = self.count;
        if at < syntax::VARIABLES {
            next.lows[at] = (v.low - LOWEST) as u16;
            next.highs[at] = (v.high - LOWEST) as u16;
            next.starts[at] = (v.start - LOWEST) as u16;
            next.count = at + 1;
            next.states = self.states * ((v.high - v.low) as u16 + 1);
        }
        next
    }

    // The same, with their weights.
    fn weighed(self) -> Bounds
        requires { self.count ≤ most_vars }
        ensures { Weighed self result }
    {
        Bounds {
            weights: weights_of(self.lows, self.highs, self.count, self.states),
            ..self
        }
    }
}

// The variables that begin at a token.
pub fn read(kinds: &[u8], values: &[u16], at: usize) -> Result<Declared, BadRange>
    ensures { (vs : List Var) (ls us : List Lexeme) → Numbers ls kinds.now values.now
        → drop at ls ≡ each spell_var vs ++ us → EndsVars us → length vs ≤ most_vars → length ls ≤ most_bytes
        → Ranged vs ls us at result }
{
    let mut bounds = no_bounds();
    let mut next = at;
    while kind_at(kinds, next) == syntax::KEY_VAR {
        let v = triple_at(kinds, values, next);
        if !v.fits(bounds.states) {
            return Err(BadRange { token: next });
        }
        bounds = bounds.with_var(v);
        next = v.next;
    }
    Ok(Declared {
        bounds: bounds.weighed(),
        next,
    })
}

// What sixteen bits keep of a sum.
pub fn plus(a: u16, b: u16) -> u16
    ensures { result ≡ wrapped (a + b) }
{
    a.wrapping_add(b)
}

// And of a product.
fn times(a: u16, b: u16) -> u16
    ensures { result ≡ wrapped (a * b) }
{
    a.wrapping_mul(b)
}

// A value, and the number that is left for the variables behind it.
#[derive(Clone, Copy)]
struct Digit {
    value: u16,
    rest: StateNumber,
}

// The value that a number says at a weight.
fn digit_of(low: u16, weight: u16, rest: StateNumber) -> Digit
    ensures { DigitOf low weight rest result }
{
    if weight == 0 {
        return Digit { value: low, rest };
    }
    Digit {
        value: plus(low, rest / weight),
        rest: rest % weight,
    }
}

// The values of the state with a number.
pub fn values_of(bounds: Bounds, state: StateNumber) -> [u16; syntax::VARIABLES]
    ensures { ValuesOf bounds state result }
{
    let mut values = [128u16; syntax::VARIABLES];
    let mut rest = state;
    for k in 0..syntax::VARIABLES {
        if bounds.count <= k {
            return values;
        }
        let digit = digit_of(bounds.lows[k], bounds.weights[k], rest);
        values[k] = digit.value;
        rest = digit.rest;
    }
    values
}

// How far a value is above a lowest one, 0 below it.
fn above(value: u16, low: u16) -> u16
    ensures { result ≡ value - low }
{
    value.saturating_sub(low)
}

// What a value adds to a state's number: how far it is above its lowest, as often as it weighs.
pub fn share_of(value: u16, low: u16, weight: u16) -> StateNumber
    ensures { result ≡ share wrapped value low weight }
{
    times(above(value, low), weight)
}

// The number of the state with some values.
pub fn number_of(bounds: Bounds, values: [u16; syntax::VARIABLES]) -> StateNumber
    ensures { NumberOf bounds values result }
{
    let mut number: StateNumber = 0;
    for k in 0..syntax::VARIABLES {
        if bounds.count <= k {
            return number;
        }
        let more = share_of(values[k], bounds.lows[k], bounds.weights[k]);
        number = plus(number, more);
    }
    number
}
