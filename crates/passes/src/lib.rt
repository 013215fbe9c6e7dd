// The passes over a file's tokens that answer 3 and 5, by counts: each finds the place of the first token that offends.
#![tactic(auto)]

ghost use Rattle.std.specs.Prelude.{◌≡◌, ◌&&◌, ◌||◌, ℕ, ◌+◌, ◌≤◌, ◌<◌, List, leb, eqb};
ghost use Rattle.syntax.specs.Limits.{most_tokens, most_open, most_vars, most_methods, most_tries};
ghost use Rattle.machine.specs.Limits.{most_regions};
ghost use Rattle.syntax.specs.Token.{Token, Lexeme, k_var, k_method, k_waituntil, k_try};
ghost use Rattle.syntax.specs.Decide.Lexeme.{is_key};
ghost use Rattle.syntax.specs.Held.Kind.{kind_of, Words};
ghost use Rattle.meaning.specs.Accepted.{opens};
ghost use Rattle.meaning.specs.Decide.Check.{tally, crowded, past_limit};
ghost use Rattle.passes.specs.Pass.{found_of};

// Is a kind one of two?
fn either(kind: u8, a: u8, b: u8) -> bool
    ensures { result ≡ (eqb kind a || eqb kind b) }
{
    kind == a || kind == b
}

// Is this token past the 1,024th, or one that opens the thirteenth level?
fn crowds(kind: u8, passed: usize, opened: usize, closed: usize) -> bool
    requires { closed ≤ passed }
    ensures { (l : Lexeme) → kind ≡ kind_of l → result ≡ (leb most_tokens passed || (opens l && leb (closed + most_open) opened)) }
{
    syntax::TOKENS <= passed
        || either(kind, syntax::LBRACE, syntax::LPAREN) && closed + syntax::OPEN <= opened
}

// 3: more than 1,024 tokens, or brackets and braces nested deeper than 12.
pub fn find_crowded(kinds: &[u8], places: &[u16]) -> Option<u16>
    ensures { (file : List ℕ) (ts : List Token) (values : List ℕ)
        → Words file ts kinds.now values places.now → result ≡ found_of (crowded 0 0 0 ts) }
{
    if places.len() != kinds.len() {
        return None;
    }
    let mut opened = 0;
    let mut closed = 0;
    for (passed, &kind) in kinds.iter().enumerate() {
        if crowds(kind, passed, opened, closed) {
            return Some(places[passed]);
        }
        opened += usize::from(either(kind, syntax::LBRACE, syntax::LPAREN));
        closed += usize::from(either(kind, syntax::RBRACE, syntax::RPAREN));
    }
    None
}

// Is this token a var past 6, a method past 8, a waituntil past 16 or a try past 16?
fn exceeds(kind: u8, vars: usize, methods: usize, regions: usize, tries: usize) -> bool
    ensures { (l : Lexeme) → kind ≡ kind_of l
        → result ≡ ((is_key k_var l && leb most_vars vars) || (is_key k_method l && leb most_methods methods)
        || (is_key k_waituntil l && leb most_regions regions) || (is_key k_try l && leb most_tries tries)) }
{
    match kind {
        syntax::KEY_VAR => syntax::VARIABLES <= vars,
        syntax::KEY_METHOD => syntax::METHODS <= methods,
        syntax::KEY_WAITUNTIL => machine::REGIONS <= regions,
        syntax::KEY_TRY => syntax::TRIES <= tries,
        _ => false,
    }
}

// 5: a var past 6, a method past 8, a waituntil past 16 or a try past 16.
pub fn find_past_limit(kinds: &[u8], places: &[u16]) -> Option<u16>
    ensures { (file : List ℕ) (ts : List Token) (values : List ℕ)
        → Words file ts kinds.now values places.now → result ≡ found_of (past_limit 0 0 0 0 ts) }
{
    if places.len() != kinds.len() {
        return None;
    }
    let mut vars = 0;
    let mut methods = 0;
    let mut regions = 0;
    let mut tries = 0;
    for (i, &kind) in kinds.iter().enumerate() {
        if exceeds(kind, vars, methods, regions, tries) {
            return Some(places[i]);
        }
        vars += usize::from(kind == syntax::KEY_VAR);
        methods += usize::from(kind == syntax::KEY_METHOD);
        regions += usize::from(kind == syntax::KEY_WAITUNTIL);
        tries += usize::from(kind == syntax::KEY_TRY);
    }
    None
}
