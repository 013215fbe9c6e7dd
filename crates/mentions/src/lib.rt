// The variables that keep, the guards, the tries and the bodies of a file name, as sets of slots, and for each region
// the guards that it touches: those that name a variable which its body assigns. By one scan of each text's tokens.
#![tactic(auto)]

ghost use Rattle.std.specs.Prelude.{◌≡◌, List, ℕ, ◌-◌, ◌<◌, ◌≤◌, get_or};
ghost use Rattle.machine.specs.Limits.{most_regions};
ghost use Rattle.sets.specs.Set.{member, size};
ghost use Rattle.meaning.specs.Decide.Touch.{sum_of};
ghost use Rattle.syntax.specs.Token.{Lexeme};
ghost use Rattle.syntax.specs.Tree.{Monitor};
ghost use Rattle.mentions.specs.Gathered.{only_left, counts_at, gathered, Gathers, guard_at};
ghost use Rattle.mentions.specs.Gathered.{meet_below, Touches};
ghost use Rattle.mentions.specs.Mentioned.{Resolved, Mentioned};

use layout::{Layout, Tries};

// Sets of slots, left sides included: those of the variables that keep, each guard, each try and each body name; and
// sets of guards: those that each region touches.
#[derive(Clone, Copy)]
pub struct Mentions {
    pub keep: u16,
    pub guards: [u16; machine::REGIONS],
    pub tries: [u16; syntax::TRIES],
    pub bodies: [u16; machine::REGIONS],
    pub touched: [u16; machine::REGIONS],
}

// How many tokens behind a left side `:=` stands.
const TO_BECOMES: usize = 1;

// Which tokens of a text count: all its names, or those that are left sides.
#[derive(Clone, Copy)]
enum Which {
    Named,
    Assigned,
}

impl Which {
    // Whether a token is one of them.
    fn counts(self, kinds: &[u8], i: usize) -> bool
        ensures { result ≡ counts_at kinds.now (only_left self) i }
    {
        layout::kind_at(kinds, i) == syntax::NAME
            && match self {
                Which::Named => true,
                Which::Assigned => layout::kind_at(kinds, i + TO_BECOMES) == syntax::BECOMES,
            }
    }
}

// The kinds of the tokens between which a text stands: it ends before the closer that no opener in it has.
#[derive(Clone, Copy)]
struct Ends {
    opener: u8,
    closer: u8,
}

// The tokens at which the guards begin, by guard.
pub fn guards_at(layout: Layout) -> [u16; machine::REGIONS]
    ensures { (g : ℕ) → g < most_regions → get_or result g 0 ≡ guard_at layout g }
{
    let firsts = layout.firsts;
    firsts.map(|first| layout.guards_at[usize::from(first % machine::REGION_END)])
}

// What is held at a token, 0 past the last.
fn slot_at(values: &[u16], at: usize) -> u32
    ensures { result ≡ get_or values.now at 0 }
{
    match values.get(at) {
        Some(slot) => u32::from(*slot),
        None => 0,
    }
}

// The slots of the tokens that count, from one token to another.
fn gather(kinds: &[u8], values: &[u16], from: usize, to: usize, which: Which) -> u16
    ensures { (k : ℕ) → member result k
        ≡ gathered kinds.now (only_left which) values.now from (to - from) k }
{
    let mut set: u16 = 0;
    for i in from..to {
        if which.counts(kinds, i) {
            set = sets::with(set, slot_at(values, i));
        }
    }
    set
}

// The same of the text that begins at a token.
fn gather_from(kinds: &[u8], values: &[u16], at: usize, ends: Ends, which: Which) -> u16
    ensures { Gathers kinds.now (only_left which) values.now ends.opener ends.closer at result }
{
    let to = layout::closing(kinds, at, ends.opener, ends.closer);
    gather(kinds, values, at, to, which)
}

// The same of some texts, at most sixteen.
fn gather_all(
    kinds: &[u8],
    values: &[u16],
    ats: [u16; machine::REGIONS],
    count: usize,
    ends: Ends,
    which: Which,
) -> [u16; machine::REGIONS]
    ensures { (i : ℕ) → i < count → i < most_regions
        → Gathers kinds.now (only_left which) values.now ends.opener ends.closer (get_or ats i 0) (get_or result i 0) }
{
    let mut all = [0u16; machine::REGIONS];
    for i in 0..machine::REGIONS {
        if i < count {
            all[i] = gather_from(kinds, values, usize::from(ats[i]), ends, which);
        }
    }
    all
}

// Whether a guard names a variable that a body assigns, by the sets of the two.
fn meets(named: u16, assigned: u16, variables: usize) -> bool
    ensures { result ≡ meet_below variables named assigned }
{
    sets::below(sets::both(named, assigned), variables) != 0
}

// The guards that a body touches, by what it assigns.
fn touched_by(assigned: u16, named: [u16; machine::REGIONS], guards: usize, variables: usize) -> u16
    ensures { Touches guards variables named assigned result }
{
    let mut set: u16 = 0;
    for guard in 0..machine::REGIONS {
        if (guard < guards) & meets(named[guard], assigned, variables) {
            set = sets::with(set, guard as u32);
        }
    }
    set
}

// The same of every body.
fn touched_all(
    assigned: [u16; machine::REGIONS],
    named: [u16; machine::REGIONS],
    guards: usize,
    variables: usize,
) -> [u16; machine::REGIONS]
    ensures { (q : ℕ) → q < most_regions → Touches guards variables named (get_or assigned q 0) (get_or result q 0) }
{
    let mut all = [0u16; machine::REGIONS];
    for q in 0..machine::REGIONS {
        all[q] = touched_by(assigned[q], named, guards, variables);
    }
    all
}

// What the texts of a file name, and what its regions touch, once names are resolved: how many variables the file has,
// and where its parts stand.
pub fn survey(
    kinds: &[u8],
    values: &[u16],
    variables: usize,
    layout: Layout,
    tries: Tries,
) -> Mentions
    ensures { (m : Monitor) (ls : List Lexeme)
        → Resolved m ls kinds.now values.now variables layout tries → Mentioned m result }
{
    let condition = Ends {
        opener: syntax::NO_KIND,
        closer: syntax::SEMICOLON,
    };
    let guard = Ends {
        opener: syntax::LPAREN,
        closer: syntax::RPAREN,
    };
    let body = Ends {
        opener: syntax::LBRACE,
        closer: syntax::RBRACE,
    };
    let named = Which::Named;
    let guards_at = guards_at(layout);
    let guards = gather_all(kinds, values, guards_at, layout.guards, guard, named);
    let bodies_at = layout.bodies_at;
    let regions = layout.regions;
    let assigned = gather_all(kinds, values, bodies_at, regions, body, Which::Assigned);
    Mentions {
        keep: gather_from(kinds, values, layout.keep, condition, named),
        guards,
        tries: gather_all(kinds, values, tries.ats, tries.count, condition, named),
        bodies: gather_all(kinds, values, bodies_at, regions, body, named),
        touched: touched_all(assigned, guards, layout.guards, variables),
    }
}

// How many pairs of region and guard are touched, of so many regions.
pub fn pairs_of(touched: [u16; machine::REGIONS], regions: usize) -> u16
    ensures { regions ≤ most_regions → result ≡ sum_of regions (λ q. size (get_or touched q 0) most_regions) }
{
    let mut pairs: u16 = 0;
    for q in 0..regions.min(machine::REGIONS) {
        pairs += sets::count(touched[q]) as u16;
    }
    pairs
}
