// Refusals 8 and 9, and the choice among the tries before 9: the truths and the outcomes of the bodies of a file whose
// names and braces are resolved, into lent slices.
#![tactic(auto)]

ghost use Rattle.std.specs.Prelude.{◌≡◌, List, ◌⊎◌, ◌≤◌, length};
ghost use Rattle.machine.specs.Limits.{most_states, most_after};
ghost use Rattle.syntax.specs.Token.{Lexeme};
ghost use Rattle.syntax.specs.Tree.{Monitor};
ghost use Rattle.mentions.specs.Mentioned.{Mentioned};
ghost use Rattle.rows.specs.Filling.{Filling};
ghost use Rattle.filling.specs.Filling.{Settles, Filled, AsLong, Leaves};

use answers::{Answer, Refusal};
use choice::Choice;
use layout::{Layout, Tries};
use machine::StateNumber;
use mentions::Mentions;
use variables::Bounds;

// Stays (no plainer): a file that is refused with 8 or 9 has its choice told beside the answer, so an error would carry what
// an accepted file has.
// 8 and 9: the answer, and the choice among the tries.
#[derive(Clone, Copy)]
pub struct Settled {
    pub answer: Answer,
    pub choice: Choice,
}

// 9, and the choice before it, from the truths and the outcomes of the bodies, which go into lent slices. Where there
// are no tries, `tried` is not written.
fn fill_states(
    kinds: &[u8],
    values: &[u16],
    bounds: Bounds,
    layout: Layout,
    tries: Tries,
    mentions: Mentions,
    kept: &mut [u8],
    holds: &mut [u16],
    after: &mut [StateNumber],
    tried: &mut [u16],
) -> Settled
    ensures settles { (m : Monitor) (ls : List Lexeme) → Filling m ls kinds.now values.now bounds layout tries
        → Mentioned m mentions → most_states ≤ length kept.old → most_states ≤ length holds.old
        → most_after ≤ length after.old → (1 ≤ tries.count → most_states ≤ length tried.old)
        → Settles m result kept.new holds.new after.new }
    ensures ends { ((result.answer.number ≡ 9) ⊎ (result.answer.number ≡ 0))
        × AsLong kept.old holds.old after.old
        kept.new holds.new after.new }
{
    rows::fill_rows(
        kinds, values, bounds, layout, tries, mentions, kept, holds, tried, after,
    );
    let numbers = layout.guard_of;
    let regions = layout.regions;
    let start = variables::number_of(bounds, bounds.starts);
    let choice = choice::choose(
        bounds.states,
        numbers,
        regions,
        start,
        tries.count,
        kept,
        holds,
        after,
        tried,
    );
    choice::strengthen(kept, tried, choice.chosen, bounds.states);
    match breaking::first_broken(bounds, numbers, regions, kept, holds, after) {
        Some((region, state)) => Settled {
            answer: Answer::from(Refusal::Breaks { region, state }),
            choice,
        },
        None => Settled {
            answer: Answer::accepted(),
            choice,
        },
    }
}

// 8 and 9, once names and braces are resolved. At the start values the chosen tries hold, so 8 asks for keep alone.
pub fn fill(
    kinds: &[u8],
    values: &[u16],
    bounds: Bounds,
    layout: Layout,
    tries: Tries,
    mentions: Mentions,
    place: usize,
    kept: &mut [u8],
    holds: &mut [u16],
    after: &mut [StateNumber],
) -> Settled
    ensures filled { (m : Monitor) (ls : List Lexeme) → Filling m ls kinds.now values.now bounds layout tries
        → Mentioned m mentions → most_states ≤ length kept.old → most_states ≤ length holds.old
        → most_after ≤ length after.old
        → Filled m place result kept.new holds.new after.new }
    ensures leaves { Leaves result.answer.number kept.old holds.old after.old
        kept.new holds.new after.new }
{
    if !lanes::holds_at(kinds, values, bounds.starts, layout.keep) {
        return Settled {
            answer: Answer::from(Refusal::StartNotKept(place)),
            choice: choice::undropped(0),
        };
    }
    if tries.count == 0 {
        let mut none = [0u16; 1];
        return fill_states(
            kinds, values, bounds, layout, tries, mentions, kept, holds, after, &mut none,
        );
    }
    let mut tried = [0u16; machine::STATES];
    fill_states(
        kinds, values, bounds, layout, tries, mentions, kept, holds, after, &mut tried,
    )
}
