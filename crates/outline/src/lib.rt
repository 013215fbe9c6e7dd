// What a file has and where it stands among its bytes: from its tokens, its variables and its layout.
#![tactic(auto)]

ghost use Rattle.std.specs.Prelude.{◌≡◌, List, ℕ, ◌<◌, ◌≤◌, get_or, take, length};
ghost use Rattle.syntax.specs.Limits.{most_vars, most_tries, most_methods};
ghost use Rattle.machine.specs.Limits.{most_regions};
ghost use Rattle.syntax.specs.Held.Kind.{Words};
ghost use Rattle.syntax.specs.Token.{Token, lexemes};
ghost use Rattle.syntax.specs.Tree.{Monitor, all, spell};
ghost use Rattle.meaning.specs.Model.{vars};
ghost use Rattle.variables.specs.Bounded.{Bounded};
ghost use Rattle.layout.specs.Laid.{Laid};
ghost use Rattle.outline.specs.Found.{nth_of, count_of};
ghost use Rattle.outline.specs.Slices.{name_in, between_in, condition_in};
ghost use Rattle.outline.specs.Slices.{variable_in, method_in, region_in, Slots};
ghost use Rattle.outline.specs.Outlined.{Outlines, NoOutline};

use answers::Answer;
use layout::Layout;
use variables::Bounds;

// From a byte on, up to another.
#[repr(C)]
#[derive(Clone, Copy)]
pub struct Span {
    pub from: usize,
    pub to: usize,
}

// A variable: its name, and its start value and bounds, each with 128 added.
#[repr(C)]
#[derive(Clone, Copy)]
pub struct Variable {
    pub name: Span,
    pub start: u16,
    pub low: u16,
    pub high: u16,
}

// A method: its name, and the number of its first region.
#[repr(C)]
#[derive(Clone, Copy)]
pub struct Method {
    pub name: Span,
    pub first: usize,
}

// A region: its guard and its body, and the guard's number.
#[repr(C)]
#[derive(Clone, Copy)]
pub struct Region {
    pub guard: Span,
    pub body: Span,
    pub number: usize,
}

// The verdict of a file, and what it has: how many variables, tries, methods, regions, guards and states, the number of
// the state at the start values; where its name, the condition behind `keep` and those of its tries stand; and each
// variable, method and region.
#[repr(C)]
#[derive(Clone, Copy)]
pub struct Outline {
    pub answer: Answer,
    pub vars: usize,
    pub tries: usize,
    pub methods: usize,
    pub regions: usize,
    pub guards: usize,
    pub states: usize,
    pub start: usize,
    pub title: Span,
    pub keep: Span,
    pub variable: [Variable; syntax::VARIABLES],
    pub tried: [Span; syntax::TRIES],
    pub method: [Method; syntax::METHODS],
    pub region: [Region; machine::REGIONS],
}

// The bytes of `keep` and of `try`, and of a bracket or a brace.
const KEEP_BYTES: usize = 4;

const TRY_BYTES: usize = 3;

const MARK_BYTES: usize = 1;

// How many tokens on: the name from `monitor`, `var` or `method`, and the bracket from `waituntil`.
const NEXT: usize = 1;

// What an empty slot holds.
const NO_SPAN: Span = Span { from: 0, to: 0 };

const NO_VARIABLE: Variable = Variable {
    name: NO_SPAN,
    start: 0,
    low: 0,
    high: 0,
};

const NO_METHOD: Method = Method {
    name: NO_SPAN,
    first: 0,
};

const NO_REGION: Region = Region {
    guard: NO_SPAN,
    body: NO_SPAN,
    number: 0,
};

// The tokens of a file, each by its kind, its value and its place.
#[derive(Clone, Copy)]
struct Tokens<'a> {
    kinds: &'a [u8],
    values: &'a [u16],
    places: &'a [u16],
}

// A number of a slice, 0 past its end.
fn number_at(xs: &[u16], at: usize) -> usize
    ensures { (result ≡ get_or xs.now at 0) × (result < 65536) }
{
    usize::from(xs.get(at).copied().unwrap_or(0))
}

impl Tokens<'_> {
    // The token that is the k-th of a kind, from 0, or how many tokens there are.
    fn nth(self, kind: u8, k: usize) -> usize
        ensures { (result ≡ nth_of kind k self.entry.kinds.now) × (result ≤ length self.entry.kinds.now) }
    {
        let mut left = k;
        for (i, &x) in self.kinds.iter().enumerate() {
            if x == kind {
                if left == 0 {
                    return i;
                }
                left -= 1;
            }
        }
        self.kinds.len()
    }

    // How many of a kind stand before a token.
    fn count_before(self, kind: u8, end: usize) -> usize
        ensures { result ≡ count_of kind (take end self.entry.kinds.now) }
    {
        self.kinds.iter().take(end).filter(|&&x| x == kind).count()
    }

    // Where the name at a token stands; a name's value is its length.
    fn name_at(self, at: usize) -> Span
        ensures { result ≡ name_in self.entry.values.now self.entry.places.now at }
    {
        let from = number_at(self.places, at);
        let long = number_at(self.values, at);
        Span {
            from,
            to: from + long,
        }
    }

    // What stands between two tokens, the first of so many bytes.
    fn between(self, opener: usize, size: usize, closer: usize) -> Span
        requires { size ≤ 16 }
        ensures { result ≡ between_in self.entry.places.now opener size closer }
    {
        Span {
            from: number_at(self.places, opener) + size,
            to: number_at(self.places, closer),
        }
    }

    // The variable with a number.
    fn variable_at(self, bounds: Bounds, k: usize) -> Variable
        requires { k < most_vars }
        ensures { result ≡ variable_in self.entry.kinds.now self.entry.values.now self.entry.places.now bounds k }
    {
        let at = self.nth(syntax::KEY_VAR, k);
        Variable {
            name: self.name_at(at + NEXT),
            start: bounds.starts[k],
            low: bounds.lows[k],
            high: bounds.highs[k],
        }
    }

    // The method with a number; its first region is behind as many as stand before it.
    fn method_at(self, k: usize) -> Method
        ensures { result ≡ method_in self.entry.kinds.now self.entry.values.now self.entry.places.now k }
    {
        let at = self.nth(syntax::KEY_METHOD, k);
        Method {
            name: self.name_at(at + NEXT),
            first: self.count_before(syntax::KEY_WAITUNTIL, at),
        }
    }

    // The region with a number, whose guard has another: `waituntil ( guard ) { body }`.
    fn region_at(self, number: u8, k: usize) -> Region
        ensures { result ≡ region_in self.entry.kinds.now self.entry.places.now number k }
    {
        let opener = self.nth(syntax::KEY_WAITUNTIL, k) + NEXT;
        let closer = layout::closing(self.kinds, opener + 1, syntax::LPAREN, syntax::RPAREN);
        let brace = closer + 1;
        let end = layout::closing(self.kinds, brace + 1, syntax::LBRACE, syntax::RBRACE);
        Region {
            guard: self.between(opener, MARK_BYTES, closer),
            body: self.between(brace, MARK_BYTES, end),
            number: usize::from(number),
        }
    }

    // The condition behind the k-th word of a kind and of so many bytes: `keep condition ;`, `try condition ;`.
    fn condition_at(self, kind: u8, k: usize, size: usize) -> Span
        requires { size ≤ 16 }
        ensures { result ≡ condition_in self.entry.kinds.now self.entry.places.now kind k size }
    {
        let at = self.nth(kind, k);
        let end = layout::closing(self.kinds, at + NEXT, syntax::NO_KIND, syntax::SEMICOLON);
        self.between(at, size, end)
    }
}

// The first n of so many slots hold what a closure gives of their numbers, and the others are empty.
fn slots<T: Copy, const SIZE: usize, F: Fn(usize) -> T>(empty: T, n: usize, item: F) -> [T; SIZE]
    requires callable { (k : ℕ) → k < SIZE → k < n → F.pre item k }
    ensures { Slots SIZE n empty (F.post item) result }
{
    let mut found = [empty; SIZE];
    for k in 0..n.min(SIZE) {
        found[k] = item(k);
    }
    found
}

// A refused file's: nothing but the answer.
pub fn no_outline(answer: Answer) -> Outline
    ensures { (result.answer ≡ answer) × NoOutline result }
{
    Outline {
        answer,
        vars: 0,
        tries: 0,
        methods: 0,
        regions: 0,
        guards: 0,
        states: 0,
        start: 0,
        title: NO_SPAN,
        keep: NO_SPAN,
        variable: [NO_VARIABLE; syntax::VARIABLES],
        tried: [NO_SPAN; syntax::TRIES],
        method: [NO_METHOD; syntax::METHODS],
        region: [NO_REGION; machine::REGIONS],
    }
}

// A file's, from its tokens, variables and layout.
pub fn outline_of(
    kinds: &[u8],
    values: &[u16],
    places: &[u16],
    bounds: Bounds,
    layout: Layout,
    answer: Answer,
) -> Outline
    ensures verdict { result.answer ≡ answer }
    ensures outlines { (file : List ℕ) (ts : List Token) (m : Monitor)
        → Words file ts kinds.now values.now places.now → spell m ≡ lexemes ts
        → length m.tries ≤ 16 → length (all m.methods) ≤ 8
        → Bounded (vars m) bounds → Laid m (lexemes ts) layout → Outlines ts m result }
{
    let tokens = Tokens {
        kinds,
        values,
        places,
    };
    let tries = tokens.count_before(syntax::KEY_TRY, kinds.len());
    let methods = tokens.count_before(syntax::KEY_METHOD, kinds.len());
    Outline {
        answer,
        vars: bounds.count,
        tries,
        methods,
        regions: layout.regions,
        guards: layout.guards,
        states: usize::from(bounds.states),
        start: usize::from(variables::number_of(bounds, bounds.starts)),
        title: tokens.name_at(NEXT),
        keep: tokens.condition_at(syntax::KEY_KEEP, 0, KEEP_BYTES),
        variable: slots(NO_VARIABLE, bounds.count, |k| tokens.variable_at(bounds, k)),
        tried: slots(
            NO_SPAN,
            tries,
            |k| tokens.condition_at(syntax::KEY_TRY, k, TRY_BYTES),
        ),
        method: slots(NO_METHOD, methods, |k| tokens.method_at(k)),
        region: slots(
            NO_REGION,
            layout.regions,
            |k| tokens.region_at(layout.guard_of[k], k),
        ),
    }
}
