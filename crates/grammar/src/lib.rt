// Reads the grammar over the kinds of a file's tokens, by recursive descent in the shape of `syntax`'s `Reading`: each
// function answers with the place behind its phrase, or with the one at which no file of the grammar can go on. `left`
// falls with each call of a cycle.
#![tactic(auto)]

ghost use Rattle.std.specs.Prelude.{List, map, ◌≡◌, length, ◌≤◌, ◌<◌};
ghost use Rattle.syntax.specs.Limits.{most_bytes};
ghost use Rattle.syntax.specs.Token.{Lexeme, k_var, k_method, k_waituntil, k_try};
ghost use Rattle.syntax.specs.Decide.Lexeme.{is_key};
ghost use Rattle.syntax.specs.Tree.{Int, Atom, Term, Signed, Expr, Cond, Conj, Simple, Block, Stmt, Region, Method};
ghost use Rattle.syntax.specs.Tree.{Var, Monitor};
ghost use Rattle.syntax.specs.Decide.Reading.{at_end, is_sign, read_many, read_int, read_atom, read_term, read_signed};
ghost use Rattle.syntax.specs.Decide.Reading.{read_expr, read_cond, read_conj, read_simple, read_block, read_stmt};
ghost use Rattle.syntax.specs.Decide.Reading.{read_region, read_method, read_var, read_try, read_monitor};
ghost use Rattle.syntax.specs.Decide.Reading as reading;
ghost use Rattle.syntax.specs.Held.Kind.{kind_of};
ghost use Rattle.grammar.specs.Reads.{IsRead, Follows, Expects, Spends, Sees, Accepts, ended};

// The token with which no file of the grammar can go on; the count of tokens stands for the file's end.
#[derive(Clone, Copy, Debug, PartialEq, Eq)]
pub struct Stuck {
    pub token: usize,
}

// The place behind a token of a kind from `low` to `high`, if one comes next.
fn accept_among(kinds: &[u8], at: usize, low: u8, high: u8) -> Option<usize>
    ensures { Accepts kinds.now at low high result }
{
    let kind = *kinds.get(at)?;
    if kind < low || high < kind {
        return None;
    }
    Some(at + 1)
}

fn accept(kinds: &[u8], at: usize, kind: u8) -> Option<usize>
    ensures { Accepts kinds.now at kind kind result }
{
    accept_among(kinds, at, kind, kind)
}

// Whether a token of a kind comes next.
fn sees(kinds: &[u8], at: usize, kind: u8) -> bool
    ensures { Sees kinds.now at kind kind result }
{
    accept(kinds, at, kind).is_some()
}

// Passes over a token of a kind from `low` to `high`.
fn expect_among(kinds: &[u8], at: usize, low: u8, high: u8) -> Result<usize, Stuck>
    ensures { Expects kinds.now at low high result }
{
    match accept_among(kinds, at, low, high) {
        Some(next) => Ok(next),
        None => Err(Stuck { token: at }),
    }
}

fn expect(kinds: &[u8], at: usize, kind: u8) -> Result<usize, Stuck>
    ensures { Expects kinds.now at kind kind result }
{
    expect_among(kinds, at, kind, kind)
}

// That no token is left.
fn at_end(kinds: &[u8], at: usize) -> Result<(), Stuck>
    ensures { Follows (Unit {0}) kinds.now at at_end (ended kinds.now result) }
{
    if at < kinds.len() {
        Err(Stuck { token: at })
    } else {
        Ok(())
    }
}

// One call less is left, or the reading stops.
fn spend(left: usize, at: usize) -> Result<usize, Stuck>
    ensures { Spends left at result }
{
    left.checked_sub(1).ok_or(Stuck { token: at })
}

fn read_int(kinds: &[u8], at: usize) -> Result<usize, Stuck>
    ensures { Follows Int kinds.now at read_int result }
{
    match accept(kinds, at, syntax::MINUS) {
        Some(at) => expect(kinds, at, syntax::NUMBER),
        None => expect(kinds, at, syntax::NUMBER),
    }
}

fn read_atom(kinds: &[u8], at: usize) -> Result<usize, Stuck>
    ensures { Follows Atom kinds.now at read_atom result }
{
    if sees(kinds, at, syntax::NAME) {
        expect(kinds, at, syntax::NAME)
    } else {
        read_int(kinds, at)
    }
}

// An atom, or two with `mod` between them.
fn read_term(kinds: &[u8], at: usize) -> Result<usize, Stuck>
    ensures { Follows Term kinds.now at read_term result }
{
    let atom = read_atom(kinds, at)?;
    match accept(kinds, atom, syntax::KEY_MOD) {
        Some(word) => read_atom(kinds, word),
        None => Ok(atom),
    }
}

// Terms joined by + and -, as many as there are.
fn read_terms(kinds: &[u8], from: usize, rounds: usize) -> Result<usize, Stuck>
    ensures { Follows (List Signed) kinds.now from (read_many is_sign read_signed rounds) result }
{
    let mut at = from;
    for _round in 0..rounds {
        match accept_among(kinds, at, syntax::PLUS, syntax::MINUS) {
            Some(sign) => at = read_term(kinds, sign)?,
            None => return Ok(at),
        }
    }
    Err(Stuck { token: at })
}

fn read_expr(kinds: &[u8], at: usize, left: usize) -> Result<usize, Stuck>
    ensures { Follows Expr kinds.now at (read_expr left) result }
{
    let term = read_term(kinds, at)?;
    read_terms(kinds, term, left)
}

#[cycle(read_cond_read_conj_read_simple)]
fn read_cond(kinds: &[u8], at: usize, left: usize) -> Result<usize, Stuck>
    ensures { Follows Cond kinds.now at (read_cond left) result }
{
    let less = spend(left, at)?;
    let conj = read_conj(kinds, at, less)?;
    match accept(kinds, conj, syntax::OR_OR) {
        Some(or) => read_cond(kinds, or, less),
        None => Ok(conj),
    }
}

#[cycle(read_cond_read_conj_read_simple)]
fn read_conj(kinds: &[u8], at: usize, left: usize) -> Result<usize, Stuck>
    ensures { Follows Conj kinds.now at (read_conj left) result }
{
    let less = spend(left, at)?;
    let simple = read_simple(kinds, at, less)?;
    match accept(kinds, simple, syntax::AND_AND) {
        Some(and) => read_conj(kinds, and, less),
        None => Ok(simple),
    }
}

#[cycle(read_cond_read_conj_read_simple)]
fn read_simple(kinds: &[u8], at: usize, left: usize) -> Result<usize, Stuck>
    ensures { Follows Simple kinds.now at (read_simple left) result }
{
    let less = spend(left, at)?;
    if let Some(bang) = accept(kinds, at, syntax::BANG) {
        return read_simple(kinds, bang, less);
    }
    if let Some(open) = accept(kinds, at, syntax::LPAREN) {
        let cond = read_cond(kinds, open, less)?;
        return expect(kinds, cond, syntax::RPAREN);
    }
    if let Some(yes) = accept(kinds, at, syntax::KEY_TRUE) {
        return Ok(yes);
    }
    if let Some(no) = accept(kinds, at, syntax::KEY_FALSE) {
        return Ok(no);
    }
    let one = read_expr(kinds, at, less)?;
    let comparison = expect_among(kinds, one, syntax::SAME, syntax::AT_LEAST)?;
    read_expr(kinds, comparison, less)
}

// Statements up to a closing brace, which is left.
#[cycle(read_block_read_stmt)]
fn read_block(kinds: &[u8], at: usize, left: usize) -> Result<usize, Stuck>
    ensures { Follows Block kinds.now at (read_block left) result }
{
    let less = spend(left, at)?;
    if sees(kinds, at, syntax::RBRACE) {
        return Ok(at);
    }
    // Stays (what may not change): by `?` no operand says where a block stops, so the edit of that would fail for its form alone.
    match read_stmt(kinds, at, less) {
        Ok(next) => read_block(kinds, next, less),
        Err(stuck) => Err(stuck),
    }
}

#[cycle(read_block_read_stmt)]
fn read_stmt(kinds: &[u8], at: usize, left: usize) -> Result<usize, Stuck>
    ensures { Follows Stmt kinds.now at (read_stmt left) result }
{
    let less = spend(left, at)?;
    if let Some(word) = accept(kinds, at, syntax::KEY_IF) {
        let open = expect(kinds, word, syntax::LPAREN)?;
        let cond = read_cond(kinds, open, less)?;
        let close = expect(kinds, cond, syntax::RPAREN)?;
        let begin = expect(kinds, close, syntax::LBRACE)?;
        let block = read_block(kinds, begin, less)?;
        let end = expect(kinds, block, syntax::RBRACE)?;
        if let Some(other) = accept(kinds, end, syntax::KEY_ELSE) {
            let begin2 = expect(kinds, other, syntax::LBRACE)?;
            let block2 = read_block(kinds, begin2, less)?;
            return expect(kinds, block2, syntax::RBRACE);
        }
        return Ok(end);
    }
    let name = expect(kinds, at, syntax::NAME)?;
    let becomes = expect(kinds, name, syntax::BECOMES)?;
    let value = read_expr(kinds, becomes, less)?;
    expect(kinds, value, syntax::SEMICOLON)
}

fn read_region(kinds: &[u8], at: usize, left: usize) -> Result<usize, Stuck>
    ensures { Follows Region kinds.now at (read_region left) result }
{
    let word = expect(kinds, at, syntax::KEY_WAITUNTIL)?;
    let open = expect(kinds, word, syntax::LPAREN)?;
    let guard = read_cond(kinds, open, left)?;
    let shut = expect(kinds, guard, syntax::RPAREN)?;
    let begin = expect(kinds, shut, syntax::LBRACE)?;
    let block = read_block(kinds, begin, left)?;
    expect(kinds, block, syntax::RBRACE)
}

// As many regions as there are, each with `left` of its own.
fn read_regions(kinds: &[u8], from: usize, left: usize, rounds: usize) -> Result<usize, Stuck>
    ensures { Follows (List Region) kinds.now from (read_many (is_key k_waituntil)
        (read_region left) rounds)
        result }
{
    let mut at = from;
    for _round in 0..rounds {
        if !sees(kinds, at, syntax::KEY_WAITUNTIL) {
            return Ok(at);
        }
        at = read_region(kinds, at, left)?;
    }
    Err(Stuck { token: at })
}

fn read_method(kinds: &[u8], at: usize, left: usize) -> Result<usize, Stuck>
    ensures { Follows Method kinds.now at (read_method left) result }
{
    let word = expect(kinds, at, syntax::KEY_METHOD)?;
    let name = expect(kinds, word, syntax::NAME)?;
    let begin = expect(kinds, name, syntax::LBRACE)?;
    let region = read_region(kinds, begin, left)?;
    let regions = read_regions(kinds, region, left, left)?;
    expect(kinds, regions, syntax::RBRACE)
}

fn read_methods(kinds: &[u8], from: usize, left: usize, rounds: usize) -> Result<usize, Stuck>
    ensures { Follows (List Method) kinds.now from (read_many (is_key k_method)
        (read_method left) rounds) result }
{
    let mut at = from;
    for _round in 0..rounds {
        if !sees(kinds, at, syntax::KEY_METHOD) {
            return Ok(at);
        }
        at = read_method(kinds, at, left)?;
    }
    Err(Stuck { token: at })
}

fn read_var(kinds: &[u8], at: usize) -> Result<usize, Stuck>
    ensures { Follows Var kinds.now at read_var result }
{
    let word = expect(kinds, at, syntax::KEY_VAR)?;
    let name = expect(kinds, word, syntax::NAME)?;
    let equals = expect(kinds, name, syntax::EQUALS)?;
    let start = read_int(kinds, equals)?;
    let within = expect(kinds, start, syntax::KEY_IN)?;
    let low = read_int(kinds, within)?;
    let dots = expect(kinds, low, syntax::DOTS)?;
    let high = read_int(kinds, dots)?;
    expect(kinds, high, syntax::SEMICOLON)
}

fn read_vars(kinds: &[u8], from: usize, rounds: usize) -> Result<usize, Stuck>
    ensures { Follows (List Var) kinds.now from (read_many (is_key k_var) read_var rounds) result }
{
    let mut at = from;
    for _round in 0..rounds {
        if !sees(kinds, at, syntax::KEY_VAR) {
            return Ok(at);
        }
        at = read_var(kinds, at)?;
    }
    Err(Stuck { token: at })
}

fn read_try(kinds: &[u8], at: usize, left: usize) -> Result<usize, Stuck>
    ensures { Follows Cond kinds.now at (read_try left) result }
{
    let word = expect(kinds, at, syntax::KEY_TRY)?;
    let cond = read_cond(kinds, word, left)?;
    expect(kinds, cond, syntax::SEMICOLON)
}

// As many tries as there are.
fn read_tries(kinds: &[u8], from: usize, left: usize, rounds: usize) -> Result<usize, Stuck>
    ensures { Follows (List Cond) kinds.now from (read_many (is_key k_try)
        (read_try left) rounds) result }
{
    let mut at = from;
    for _round in 0..rounds {
        if !sees(kinds, at, syntax::KEY_TRY) {
            return Ok(at);
        }
        at = read_try(kinds, at, left)?;
    }
    Err(Stuck { token: at })
}

fn read_monitor(kinds: &[u8], at: usize, left: usize) -> Result<(), Stuck>
    ensures { Follows Monitor kinds.now at (read_monitor left) (ended kinds.now result) }
{
    let word = expect(kinds, at, syntax::KEY_MONITOR)?;
    let name = expect(kinds, word, syntax::NAME)?;
    let begin = expect(kinds, name, syntax::LBRACE)?;
    let var = read_var(kinds, begin)?;
    let vars = read_vars(kinds, var, left)?;
    let keep = expect(kinds, vars, syntax::KEY_KEEP)?;
    let cond = read_cond(kinds, keep, left)?;
    let kept = expect(kinds, cond, syntax::SEMICOLON)?;
    let tries = read_tries(kinds, kept, left, left)?;
    let method = read_method(kinds, tries, left)?;
    let methods = read_methods(kinds, method, left, left)?;
    let end = expect(kinds, methods, syntax::RBRACE)?;
    at_end(kinds, end)
}

// Reads a file's tokens as one of the grammar, or says where they are none (4).
pub fn read(kinds: &[u8]) -> Result<(), Stuck>
    ensures { (ls : List Lexeme) → map kind_of ls ≡ kinds.now → length ls ≤ most_bytes
        → IsRead result ls (reading.read ls) }
{
    if syntax::FILE_BYTES < kinds.len() {
        return Err(Stuck { token: 0 });
    }
    read_monitor(kinds, 0, 4 * (kinds.len() + 1))
}
