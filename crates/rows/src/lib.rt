// What holds at every state of a file whose names are resolved, and what every body does there, into lent slices: the
// truth of keep, the guards and the tries that hold, and the outcome of each region's body.
#![tactic(auto)]

ghost use Rattle.std.specs.Prelude.{List, ◌≤◌, length};
ghost use Rattle.machine.specs.Limits.{most_states, most_after};
ghost use Rattle.syntax.specs.Token.{Lexeme};
ghost use Rattle.syntax.specs.Tree.{Monitor};
ghost use Rattle.mentions.specs.Mentioned.{Mentioned};
ghost use Rattle.rows.specs.Filling.{Filling, Swept, GuardTexts, TryTexts};

use layout::{Layout, Tries};
use machine::StateNumber;
use mentions::Mentions;
use truths::Texts;
use variables::Bounds;

// The guards, by number.
fn guard_texts(layout: Layout, mentions: Mentions) -> Texts
    ensures { GuardTexts layout mentions result }
{
    let ats = mentions::guards_at(layout);
    let named = mentions.guards;
    Texts {
        ats,
        named,
        count: layout.guards,
    }
}

// The tries.
fn try_texts(tries: Tries, mentions: Mentions) -> Texts
    ensures { TryTexts tries mentions result }
{
    let ats = tries.ats;
    let named = mentions.tries;
    Texts {
        ats,
        named,
        count: tries.count,
    }
}

// The truths and the outcomes, whether a body may run from a state or not. Where there are no tries, `tried` is not
// written.
pub fn fill_rows(
    kinds: &[u8],
    values: &[u16],
    bounds: Bounds,
    layout: Layout,
    tries: Tries,
    mentions: Mentions,
    kept: &mut [u8],
    holds: &mut [u16],
    tried: &mut [u16],
    after: &mut [StateNumber],
)
    ensures { (m : Monitor) (ls : List Lexeme) → Filling m ls kinds.now values.now bounds layout tries
        → Mentioned m mentions → most_states ≤ length kept.old → most_states ≤ length holds.old
        → (1 ≤ tries.count → most_states ≤ length tried.old) → most_after ≤ length after.old
        → Swept m kept.new holds.new tried.new after.new }
{
    truths::fill_row(kinds, values, bounds, layout.keep, mentions.keep, kept);
    truths::fill_sets(kinds, values, bounds, guard_texts(layout, mentions), holds);
    truths::fill_sets(kinds, values, bounds, try_texts(tries, mentions), tried);
    let ats = layout.bodies_at;
    let named = mentions.bodies;
    bodies::fill_after(kinds, values, bounds, ats, named, layout.regions, after);
}
