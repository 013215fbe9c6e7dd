// Loads a file: the refusals 1 to 9 and 15 in order, and of an accepted file all that the table and the machines look up.
#![tactic(auto)]

ghost use Rattle.std.specs.Prelude.{◌≡◌, List, ◌≤◌, length};
ghost use Rattle.machine.specs.Limits.{most_states, most_after};
ghost use Rattle.syntax.specs.Held.Kind.{Words};
ghost use Rattle.syntax.specs.Token.{Token};
ghost use Rattle.syntax.specs.Tree.{Monitor};
ghost use Rattle.judging.specs.Judging.{Past7};
ghost use Rattle.filling.specs.Filling.{Leaves};
ghost use Rattle.loader.specs.Loading.{Loads, LoadsOr, OrRefusal, number_of};

use answers::{Answer, Refusal};
use choice::Choice;
use judging::Judged;
use layout::Layout;
use tokens::ScanError;
use variables::Bounds;

// 1 to 9 and 15: the answer, and of an accepted file its variables, its layout, how many tries it has with the choice among
// them, and for each region the guards that it touches, with the count of these pairs.
#[derive(Clone, Copy)]
pub struct Loaded {
    pub answer: Answer,
    pub bounds: Bounds,
    pub layout: Layout,
    pub tries: usize,
    pub choice: Choice,
    pub touched: [u16; machine::REGIONS],
    pub pairs: u16,
}

impl Loaded {
    // The verdict of the file: nothing where it is accepted, else its refusal.
    pub fn verdict(&self) -> Result<(), Answer>
        ensures { OrRefusal self.now.answer tt result }
    {
        match self.answer.number {
            0 => Ok(()),
            _ => Err(self.answer),
        }
    }
}

fn not_loaded(answer: Answer) -> Loaded
    ensures { result.answer ≡ answer }
{
    Loaded {
        answer,
        bounds: variables::no_bounds(),
        layout: Layout::empty(0),
        tries: 0,
        choice: choice::undropped(0),
        touched: [0u16; machine::REGIONS],
        pairs: 0,
    }
}

// 15, 8 and 9, over the tokens of a file that passed 3 to 7; into `operands` goes what the evaluator looks up at each.
fn load_judged(
    file: &[u8],
    kinds: &[u8],
    values: &[u16],
    places: &[u16],
    judged: Judged,
    operands: &mut [u16],
    kept: &mut [u8],
    holds: &mut [u16],
    after: &mut [u16],
) -> Result<Loaded, Refusal>
    ensures loads { (ts : List Token) (m : Monitor)
        → Words file.now ts kinds.now values.now places.now
        → Past7 ts m judged → length operands.old ≡ length ts
        → most_states ≤ length kept.old → most_states ≤ length holds.old
        → most_after ≤ length after.old
        → LoadsOr file.now result kept.new holds.new after.new }
    ensures leaves { Leaves (number_of result) kept.old holds.old after.old
        kept.new holds.new after.new }
{
    let Judged { keep, bounds } = judged;
    names::resolve(file, kinds, values, places, operands);
    layout::link_braces(kinds, operands);
    if let Some(place) = divisors::find_unvalued(
        kinds,
        operands,
        places,
        bounds.lows,
        bounds.count,
    ) {
        return Err(Refusal::NoRemainder(usize::from(place)));
    }
    let tries = layout::tries_of(kinds, keep);
    let layout = layout::lay_out(file, kinds, values, places, keep, tries.next);
    let mentions = mentions::survey(kinds, operands, bounds.count, layout, tries);
    let last = filling::fill(
        kinds,
        operands,
        bounds,
        layout,
        tries,
        mentions,
        judging::place_of(places, keep, 0),
        kept,
        holds,
        after,
    );
    let touched = mentions.touched;
    Ok(Loaded {
        answer: last.answer,
        bounds,
        layout,
        tries: tries.count,
        choice: last.choice,
        touched,
        pairs: mentions::pairs_of(touched, layout.regions),
    })
}

// 1 to 9 and 15: an error where nothing more is known of the file, by 1 to 7 and 15. A file that passed 3 has no more
// tokens than `operands` has room for.
fn load_scanned(
    file: &[u8],
    kept: &mut [u8],
    holds: &mut [u16],
    after: &mut [u16],
) -> Result<Loaded, Refusal>
    ensures loads { most_states ≤ length kept.old → most_states ≤ length holds.old
        → most_after ≤ length after.old
        → LoadsOr file.now result kept.new holds.new after.new }
    ensures leaves { Leaves (number_of result) kept.old holds.old after.old
        kept.new holds.new after.new }
{
    let mut kinds = [0u8; syntax::FILE_BYTES];
    let mut values = [0u16; syntax::FILE_BYTES];
    let mut places = [0u16; syntax::FILE_BYTES];
    let n = match tokens::scan(file, &mut kinds, &mut values, &mut places) {
        Ok(n) => n,
        Err(ScanError::TooLong) => return Err(Refusal::TooLong),
        Err(ScanError::NoToken(byte)) => return Err(Refusal::NoToken(byte)),
    };
    let kinds = &kinds[..n];
    let values = &values[..n];
    let places = &places[..n];
    let judged = judging::judge(file, kinds, values, places)?;
    let mut operands = [0u16; syntax::TOKENS];
    load_judged(
        file,
        kinds,
        values,
        places,
        judged,
        &mut operands[..n],
        kept,
        holds,
        after,
    )
}

// 1 to 9 and 15: the verdict of a file, of an accepted one all that the table and the machines look up, and of one that is
// refused with 8 or 9 what is known of it.
pub fn load(file: &[u8], kept: &mut [u8], holds: &mut [u16], after: &mut [u16]) -> Loaded
    ensures loads { most_states ≤ length kept.old → most_states ≤ length holds.old
        → most_after ≤ length after.old
        → Loads file.now result kept.new holds.new after.new }
    ensures leaves { Leaves result.answer.number kept.old holds.old after.old
        kept.new holds.new after.new }
{
    match load_scanned(file, kept, holds, after) {
        Ok(loaded) => loaded,
        Err(refusal) => not_loaded(Answer::from(refusal)),
    }
}

// What loading fills: of each state whether it is kept and which guards hold, and where each region leads from it.
#[derive(Drop)]
pub struct StateRows {
    pub kept: [u8; machine::STATES],
    pub holds: [u16; machine::STATES],
    pub after: [u16; machine::AFTER],
}

impl StateRows {
    // Rows that nothing was loaded into.
    pub const EMPTY: StateRows = StateRows {
        kept: [0u8; machine::STATES],
        holds: [0u16; machine::STATES],
        after: [0u16; machine::AFTER],
    };

    // Loads a file into the rows.
    pub fn load(&mut self, file: &[u8]) -> Loaded
        ensures loads { Loads file.now result self.new.kept self.new.holds self.new.after }
        ensures leaves { Leaves result.answer.number self.old.kept self.old.holds self.old.after
            self.new.kept self.new.holds self.new.after }
    {
        load(file, &mut self.kept, &mut self.holds, &mut self.after)
    }
}
