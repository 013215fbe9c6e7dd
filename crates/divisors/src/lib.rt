// 15, over the tokens of a file whose names are resolved: the first `mod` of keep, a try or a guard whose divisor can be
// below 1.
#![tactic(auto)]

ghost use Rattle.std.specs.Prelude.{◌≡◌, false, ◌&&◌, List, ℕ, ◌<◌, length, drop, get_or, pos, eqb};
ghost use Rattle.syntax.specs.Token.{Lexeme, Token, lexemes, key, k_mod};
ghost use Rattle.syntax.specs.Tree.{Var};
ghost use Rattle.syntax.specs.Decide.Lexeme.{is_key};
ghost use Rattle.syntax.specs.Decide.Reading.{read_atom};
ghost use Rattle.syntax.specs.Held.Kind.{kind_of, number_kind, no_kind, Words};
ghost use Rattle.meaning.specs.Value.{less, value_of};
ghost use Rattle.meaning.specs.State.{lowest};
ghost use Rattle.meaning.specs.Decide.Check.{low_divisor};
ghost use Rattle.meaning.specs.Decide.Check as check;
ghost use Rattle.passes.specs.Pass.{found_of};
ghost use Rattle.evaluator.specs.Coding.{slot_of};
ghost use Rattle.divisors.specs.Coded.{Lowest, Coded};

// The value 1, with 128 added.
const ONE: u16 = 129;

// Is a condition of keep, a try or a guard on, behind one more token?
fn asks(on: bool, kind: u8) -> bool
    ensures { (l : Lexeme) → kind ≡ kind_of l → result ≡ check.asks on l }
{
    (kind == syntax::KEY_KEEP)
        | (kind == syntax::KEY_TRY)
        | (kind == syntax::KEY_WAITUNTIL)
        | (on & !((kind == syntax::SEMICOLON) | (kind == syntax::LBRACE)))
}

// What 15 looks up: the kinds and operands of a file's tokens, and the lowest values of its variables, each with 128 added.
#[derive(Clone, Copy)]
struct Held<'a> {
    kinds: &'a [u8],
    operands: &'a [u16],
    lows: [u16; syntax::VARIABLES],
    count: usize,
}

impl<'a> Held<'a> {
    // Can the variable in a slot be below 1? One that is not declared is 0.
    fn low_variable(self, slot: usize) -> bool
        ensures { (vs : List Var) (x : List ℕ) → Lowest vs self.entry.lows self.entry.count → slot ≡ slot_of vs x
            → result ≡ less (value_of vs (lowest vs) x) (pos 1) }
    {
        if self.count <= slot {
            return true;
        }
        if syntax::VARIABLES <= slot {
            return true;
        }
        self.lows[slot] < ONE
    }

    // Does a number stand at a token?
    fn is_number(self, at: usize) -> bool
        ensures { result ≡ eqb (get_or self.entry.kinds.now at no_kind) number_kind }
    {
        self.kinds.get(at) == Some(&syntax::NUMBER)
    }

    // Can the divisor that begins at a token be below 1?
    fn low_divisor(self, at: usize) -> bool
        requires { at < 9223372036854775808 }
        ensures { (vs : List Var) (ls : List Lexeme)
            → Coded vs ls self.entry.kinds.now self.entry.operands.now self.entry.lows self.entry.count
            → result ≡ low_divisor vs (read_atom (drop at ls)) }
    {
        if self.kinds.len() <= at {
            return false;
        }
        if self.operands.len() <= at {
            return false;
        }
        match self.kinds[at] {
            syntax::NAME => self.low_variable(usize::from(self.operands[at])),
            syntax::NUMBER => self.operands[at] == 0,
            syntax::MINUS => self.is_number(at + 1),
            _ => false,
        }
    }

    // Is a token of a kind a `mod` that is asked, and can the divisor behind it be below 1?
    fn offends(self, on: bool, kind: u8, next: usize) -> bool
        requires { next < 9223372036854775808 }
        ensures { (vs : List Var) (ls : List Lexeme) (l : Lexeme)
            → Coded vs ls self.entry.kinds.now self.entry.operands.now self.entry.lows self.entry.count
            → kind ≡ kind_of l
            → result ≡ on && is_key k_mod l && low_divisor vs (read_atom (drop next ls)) }
    {
        if !on {
            return false;
        }
        if kind != syntax::KEY_MOD {
            return false;
        }
        self.low_divisor(next)
    }
}

// Does a `mod` stand among the tokens? A file without any pays for no more than this.
fn has_mod(kinds: &[u8]) -> bool
    ensures { result ≡ false
        → (i : ℕ) → i < length kinds.now → get_or kinds.now i 0 ≡ kind_of (key k_mod) → ⊥ }
{
    kinds.contains(&syntax::KEY_MOD)
}

// 15: the place of the first `mod` of keep, a try or a guard that lacks a value in some state.
pub fn find_unvalued(
    kinds: &[u8],
    operands: &[u16],
    places: &[u16],
    lows: [u16; syntax::VARIABLES],
    count: usize,
) -> Option<u16>
    ensures { (file : List ℕ) (ts : List Token) (values : List ℕ) (vs : List Var)
        → Words file ts kinds.now values places.now
        → Coded vs (lexemes ts) kinds.now operands.now lows count
        → result ≡ found_of (check.unvalued vs false ts) }
{
    if !has_mod(kinds) {
        return None;
    }
    if places.len() != kinds.len() {
        return None;
    }
    let held = Held {
        kinds,
        operands,
        lows,
        count,
    };
    let mut on = false;
    for (i, &kind) in kinds.iter().enumerate() {
        if held.offends(on, kind, i + 1) {
            return Some(places[i]);
        }
        on = asks(on, kind);
    }
    None
}
