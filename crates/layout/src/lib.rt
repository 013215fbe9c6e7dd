// Where keep, tries, guards and bodies of a file stand among its tokens; the numbers of its guards; which
// regions begin a method and which go on in it; and for each brace that opens a block the place of the one that closes
// it.
#![tactic(auto)]

ghost use Rattle.std.specs.Prelude.{◌≡◌, List, [], ◌∷◌, ◌++◌, ◌+◌, ◌%◌, ◌<◌, ◌≤◌, drop, take, get_or, length};
ghost use Rattle.syntax.specs.Limits.{most_tokens, most_tries};
ghost use Rattle.machine.specs.Limits.{most_regions};
ghost use Rattle.syntax.specs.Bytes.{same_bytes};
ghost use Rattle.syntax.specs.Token.{Lexeme, Token, lexemes, mark, rbrace};
ghost use Rattle.syntax.specs.Tree.{Monitor, all, each, spell, spell_method};
ghost use Rattle.meaning.specs.Model.{regions};
ghost use Rattle.layout.specs.Laid.{IsKeep, Laid, TriesLaid, Linked};
ghost use Rattle.syntax.specs.Held.Kind.{Kinds};
ghost use Rattle.syntax.specs.Held.Kind.{no_kind, Words};
ghost use Rattle.layout.specs.Closing.{close_from};
ghost use Rattle.layout.specs.Places.{overrun, behind_at};
ghost use Rattle.layout.specs.Promises.{Sized, SameToken, SameTokens, SameGuard, flag_at, with_guard, with_region};
ghost use Rattle.layout.specs.Promises.{Numbers, Room, AddsRegion, AddsMethod, Grown};

// At most sixteen regions and guards.
#[derive(Clone, Copy)]
pub struct Layout {
    // the token at which the kept condition begins
    pub keep: usize,
    pub regions: usize,
    pub guards: usize,
    // of each region: the tokens at which its guard and its body begin, its guard's number, whether it begins a method
    // (1), and whether another region follows it in its method (1)
    // Stays (interface): `Held`, `HeldPlaces` (machine/specs/Held) and `Laid` read each as a list of numbers, the flags as 0 and 1.
    pub guards_at: [u16; machine::REGIONS],
    pub bodies_at: [u16; machine::REGIONS],
    pub guard_of: [u8; machine::REGIONS],
    pub begins: [u8; machine::REGIONS],
    pub goes_on: [u8; machine::REGIONS],
    // of each guard: the first region that has it
    pub firsts: [u8; machine::REGIONS],
}

// The tries of a file, at most sixteen: how many, the tokens at which their conditions begin, and the token behind
// them.
// Stays (interface): no heap in the library crates, so a list of at most sixteen is an array with its count.
#[derive(Clone, Copy)]
pub struct Tries {
    pub count: usize,
    pub ats: [u16; syntax::TRIES],
    pub next: usize,
}

// A layout so far, and the token at which to go on.
#[derive(Clone, Copy)]
struct Spot {
    layout: Layout,
    at: usize,
}

// The tokens of a file, each by its kind, its value and its place, and the file's bytes.
#[derive(Clone, Copy)]
struct Tokens<'a> {
    file: &'a [u8],
    kinds: &'a [u8],
    values: &'a [u16],
    places: &'a [u16],
    ghost sized: { Sized kinds.now values.now places.now },
}

// How many tokens on a part begins: the condition from `keep` or `try`, a method's regions from `method`
// (`method NAME {`), a guard from `waituntil` (`waituntil (`), a body from the bracket that closes the guard (`) {`),
// and what stands behind a token that closes.
const TO_CONDITION: usize = 1;

const TO_REGIONS: usize = 3;

const TO_GUARD: usize = 2;

const TO_BODY: usize = 2;

const PAST: usize = 1;

// The kind of a token, and none past the last.
pub fn kind_at(kinds: &[u8], at: usize) -> u8
    ensures { result ≡ get_or kinds.now at no_kind }
{
    kinds.get(at).copied().unwrap_or(syntax::NO_KIND)
}

// The token that closes what was opened before a token: brackets or braces, by their kinds.
pub fn closing(kinds: &[u8], at: usize, opener: u8, closer: u8) -> usize
    ensures { result ≡ at + close_from opener closer 0 (drop at kinds.now) }
{
    let mut depth: usize = 0;
    for i in at..kinds.len() {
        let kind = kinds[i];
        if kind == opener {
            depth += 1;
        } else if kind == closer {
            if depth == 0 {
                return i;
            }
            depth -= 1;
        }
    }
    at.max(kinds.len())
}

impl Layout {
    // No regions, and the kept condition at a token.
    pub fn empty(keep: usize) -> Layout
        ensures { (result.keep ≡ keep) × (result.regions ≡ 0) × (result.guards ≡ 0) × Room result }
    {
        Layout {
            keep,
            regions: 0,
            guards: 0,
            guards_at: [0; machine::REGIONS],
            bodies_at: [0; machine::REGIONS],
            guard_of: [0; machine::REGIONS],
            begins: [0; machine::REGIONS],
            goes_on: [0; machine::REGIONS],
            firsts: [0; machine::REGIONS],
        }
    }

    // The next region has a guard of its own.
    fn with_guard(mut self) -> Layout
        requires { (self.regions < most_regions) × (self.guards < most_regions) }
        ensures { result ≡ with_guard self }
    {
        self.firsts[self.guards] = self.regions as u8;
        self.guards += 1;
        self
    }

    // One region more, with a guard's number.
    fn with_region(
        mut self,
        guard_at: u16,
        body_at: u16,
        number: u8,
        begins: u8,
        goes_on: u8,
    ) -> Layout
        requires { self.regions < most_regions }
        ensures { result ≡ with_region self guard_at body_at number begins goes_on }
    {
        let r = self.regions;
        self.guards_at[r] = guard_at;
        self.bodies_at[r] = body_at;
        self.guard_of[r] = number;
        self.begins[r] = begins;
        self.goes_on[r] = goes_on;
        self.regions += 1;
        self
    }
}

// A token's place in the list, as it is held.
fn held(at: usize) -> u16
    ensures { result ≡ at % 65536 }
{
    (at % 65536) as u16
}

// Whether a region begins at a token (1).
fn flag(kinds: &[u8], at: usize) -> u8
    ensures { result ≡ flag_at kinds.now at }
{
    u8::from(kind_at(kinds, at) == syntax::KEY_WAITUNTIL)
}

impl Tokens<'_> {
    // Whether two tokens are equal, numbers by value; a name's value is its length.
    fn same_token(self, a: usize, b: usize) -> bool
        requires { (a < length self.kinds.now) × (b < length self.kinds.now) }
        ensures { SameToken self.entry.file.now self.entry.kinds.now self.entry.values.now self.entry.places.now a b result }
    {
        if self.kinds[a] != self.kinds[b] {
            return false;
        }
        if self.values[a] != self.values[b] {
            return false;
        }
        if self.kinds[a] != syntax::NAME {
            return true;
        }
        let n = usize::from(self.values[a]);
        let x = usize::from(self.places[a]);
        let y = usize::from(self.places[b]);
        if self.file.len() < x + n {
            return false;
        }
        if self.file.len() < y + n {
            return false;
        }
        self.file[x..x + n] == self.file[y..y + n]
    }

    // Whether n tokens from one on equal those from another on.
    fn same_tokens(self, a: usize, b: usize, n: usize) -> bool
        requires { (a + n ≤ length self.kinds.now) × (b + n ≤ length self.kinds.now) }
        ensures { SameTokens self.entry.file.now self.entry.kinds.now self.entry.values.now self.entry.places.now a b n result }
    {
        (0..n).all(|i| self.same_token(a + i, b + i))
    }

    // Whether the guards that begin at two tokens are one.
    fn same_guard(self, a: usize, b: usize) -> bool
        ensures { SameGuard self.entry.file.now self.entry.kinds.now self.entry.values.now self.entry.places.now a b result }
    {
        if self.kinds.len() < a {
            return false;
        }
        if self.kinds.len() < b {
            return false;
        }
        let m = closing(self.kinds, a, syntax::LPAREN, syntax::RPAREN) - a;
        let n = closing(self.kinds, b, syntax::LPAREN, syntax::RPAREN) - b;
        m == n && self.same_tokens(a, b, n)
    }

    // The number of the guard that begins at a token, and the count of guards where it is new.
    fn guard_number(self, layout: Layout, at: usize) -> usize
        requires { Room layout }
        ensures { (result ≤ layout.guards)
            × Numbers self.entry.file.now self.entry.kinds.now self.entry.values.now self.entry.places.now layout at result }
    {
        for g in 0..layout.guards {
            let first = usize::from(layout.firsts[g]) % machine::REGIONS;
            let other = usize::from(layout.guards_at[first]);
            if self.same_guard(at, other) {
                return g;
            }
        }
        layout.guards
    }

    // The region whose `waituntil` stands where a layout goes on.
    fn add_region(self, spot: Spot, begins: u8) -> Spot
        requires { (spot.at < length self.kinds.now) × Room spot.layout
            × (spot.layout.regions < most_regions) }
        ensures { Grown self.entry.kinds.now spot.layout spot.at result × (spot.at < result.at)
            × (result.layout.regions ≡ spot.layout.regions + 1)
            × AddsRegion self.entry.file.now self.entry.kinds.now self.entry.values.now self.entry.places.now spot.layout spot.at begins result }
    {
        let layout = spot.layout;
        let guard_at = spot.at + TO_GUARD;
        let body_at = closing(self.kinds, guard_at, syntax::LPAREN, syntax::RPAREN) + TO_BODY;
        let next = closing(self.kinds, body_at, syntax::LBRACE, syntax::RBRACE) + PAST;
        let number = self.guard_number(layout, guard_at);
        let numbered = if number == layout.guards {
            layout.with_guard()
        } else {
            layout
        };
        Spot {
            layout: numbered.with_region(
                held(guard_at),
                held(body_at),
                number as u8,
                begins,
                flag(self.kinds, next),
            ),
            at: next,
        }
    }

    // The regions of a method, from where a layout goes on.
    fn add_method(self, from: Spot) -> Spot
        requires { (from.at ≤ length self.kinds.now + overrun) × Room from.layout }
        ensures { Grown self.entry.kinds.now from.layout from.at result
            × AddsMethod self.entry.file.now self.entry.kinds.now self.entry.values.now self.entry.places.now from.layout from.at result }
    {
        let mut spot = from;
        let mut begins = 1;
        while kind_at(self.kinds, spot.at) == syntax::KEY_WAITUNTIL {
            if machine::REGIONS <= spot.layout.regions {
                return spot;
            }
            spot = self.add_region(spot, begins);
            begins = 0;
        }
        spot
    }
}

// The token behind the condition of a `keep` or a `try` and its semicolon.
fn behind(kinds: &[u8], at: usize) -> usize
    requires { at ≤ length kinds.now }
    ensures { (result ≡ behind_at kinds.now at) × (result ≤ length kinds.now + overrun) }
{
    closing(kinds, at + TO_CONDITION, syntax::NO_KIND, syntax::SEMICOLON) + PAST
}

// The tries of a file of the grammar, whose `keep` stands at a token.
pub fn tries_of(kinds: &[u8], keep: usize) -> Tries
    ensures { (m : Monitor) (ls : List Lexeme) → Kinds ls kinds.now → length ls ≤ most_tokens
        → length m.tries ≤ most_tries → IsKeep m ls keep → TriesLaid m ls result }
{
    let mut tries = Tries {
        count: 0,
        ats: [0; syntax::TRIES],
        next: 0,
    };
    if kinds.len() <= keep {
        return tries;
    }
    tries.next = behind(kinds, keep);
    while kind_at(kinds, tries.next) == syntax::KEY_TRY {
        if syntax::TRIES <= tries.count {
            return tries;
        }
        tries.ats[tries.count] = held(tries.next + TO_CONDITION);
        tries.count += 1;
        tries.next = behind(kinds, tries.next);
    }
    tries
}

// The layout of a file of the grammar, whose `keep` stands at a token, and its first method at another.
pub fn lay_out(
    file: &[u8],
    kinds: &[u8],
    values: &[u16],
    places: &[u16],
    keep: usize,
    first: usize,
) -> Layout
    ensures { (m : Monitor) (ts : List Token) → Words file.now ts kinds.now values.now
        places.now
        → spell m ≡ lexemes ts → length (regions m) ≤ most_regions → length ts ≤ most_tokens → IsKeep m (lexemes ts) keep
        → drop first (lexemes ts) ≡ each spell_method (all m.methods) ++ (mark rbrace ∷ [])
        → Laid m (lexemes ts) result }
{
    if kinds.len() <= keep
        || kinds.len() < first
        || values.len() != kinds.len()
        || places.len() != kinds.len()
    {
        return Layout::empty(0);
    }
    let mut spot = Spot {
        layout: Layout::empty(keep + TO_CONDITION),
        at: first,
    };
    let tokens = Tokens {
        file,
        kinds,
        values,
        places,
    };
    while kind_at(kinds, spot.at) == syntax::KEY_METHOD {
        spot.at += TO_REGIONS;
        spot = tokens.add_method(spot);
        spot.at += PAST;
    }
    spot.layout
}

// At each opening brace the operand becomes the token of the closing one; the others stay.
pub fn link_braces(kinds: &[u8], operands: &mut [u16])
    ensures { (ls : List Lexeme) → Kinds ls kinds.now → length operands.old ≡ length ls
        → length ls ≤ most_tokens
        → Linked ls operands.old operands.new }
{
    if operands.len() != kinds.len() {
        return;
    }
    for (i, &kind) in kinds.iter().enumerate() {
        if kind == syntax::LBRACE {
            operands[i] = held(closing(kinds, i + PAST, syntax::LBRACE, syntax::RBRACE));
        }
    }
}
