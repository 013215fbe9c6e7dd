// Refusals 3 to 7, in order, over a file's tokens; and of a file that passes them its variables and where `keep` stands.
#![tactic(auto)]

ghost use Rattle.std.specs.Prelude.{◌≡◌, List, get_or};
ghost use Rattle.syntax.specs.Held.Kind.{Words};
ghost use Rattle.syntax.specs.Token.{Token};
ghost use Rattle.judging.specs.Judging.{Judges};

use answers::Refusal;
use variables::Bounds;

// A file that 3 to 7 pass: the token of `keep` and the variables.
#[derive(Clone, Copy)]
pub struct Judged {
    pub keep: usize,
    pub bounds: Bounds,
}

// The byte of a token, or the file's length behind the last one.
pub fn place_of(places: &[u16], token: usize, end: usize) -> usize
    ensures { result ≡ get_or places.now token end }
{
    match places.get(token) {
        Some(&place) => usize::from(place),
        None => end,
    }
}

// 3 to 7, over a file's tokens.
pub fn judge(file: &[u8], kinds: &[u8], values: &[u16], places: &[u16]) -> Result<Judged, Refusal>
    ensures { (ts : List Token)
        → Words file.now ts kinds.now values.now places.now
        → Judges file.now ts result }
{
    if let Some(place) = passes::find_crowded(kinds, places) {
        return Err(Refusal::Crowded(usize::from(place)));
    }
    if let Err(stuck) = grammar::read(kinds) {
        return Err(Refusal::NotInGrammar(place_of(places, stuck.token, file.len())));
    }
    if let Some(place) = passes::find_past_limit(kinds, places) {
        return Err(Refusal::PastLimit(usize::from(place)));
    }
    if let Some(place) = names::find_misnamed(file, kinds, values, places) {
        return Err(Refusal::Misnamed(usize::from(place)));
    }
    match variables::read(kinds, values, variables::FIRST) {
        Ok(declared) => Ok(Judged {
            keep: declared.next,
            bounds: declared.bounds,
        }),
        Err(bad) => Err(Refusal::BadRange(place_of(places, bad.token, 0))),
    }
}
