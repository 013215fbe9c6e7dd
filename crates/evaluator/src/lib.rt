// Evaluates conditions and runs bodies over a file's tokens, held as numbers: kinds, and as `values` the operands of a
// loaded file (a number's value, a name's slot among the variables, an opening brace's closing one). A place is at most
// the count of tokens, and the place behind the last is the count. Sixteen states go at once, each in a lane: `vars`
// holds the value of variable v in lane j at v * 16 + j, with 128 added; an expression's value is held with ZERO added,
// a truth as a bool for each lane. Lanes that lack a value, by a remainder's divisor below 1, are a set of bits. What
// has no `mod` pays little for that: an expression is summed up as if it had none (`eval_plain`), and where it meets
// one its comparison or assignment begins again (`compare_mod`, `assign_mod`); where truths are joined, so is a word.
#![tactic(auto)]

ghost use Rattle.std.specs.Prelude.{◌≡◌, cond, false, List, ◌∷◌, ◌++◌, IfSome, IfNone, ℕ, ◌+◌, ◌-◌, ◌%◌, ◌<◌, ◌≤◌, drop, length, get_or, set, ℤ};
ghost use Rattle.sets.specs.Set.{member};
ghost use Rattle.syntax.specs.Limits.{most_vars};
ghost use Rattle.syntax.specs.Token.{Lexeme, key, mark, rbrace, k_if};
ghost use Rattle.syntax.specs.Held.Kind.{kind_of, no_kind};
ghost use Rattle.syntax.specs.Tree.{Var, Cond, Block, spell_cond, spell_block};
ghost use Rattle.meaning.specs.Value.{truth};
ghost use Rattle.meaning.specs.Decide.Bodies.{run_block};
ghost use Rattle.meaning.specs.Held.{Biased, Ranges};
ghost use Rattle.evaluator.specs.Coding.{Codes, EndsCond, RunAs, lane};
ghost use Rattle.evaluator.specs.Promises.{Placed, Next, Closes, Operand, AtomRead, Small, Adds};
ghost use Rattle.evaluator.specs.Promises.{Remains, Near, Joined, TermRead, ExprRead, AtomSum, HasMod, test_of};
ghost use Rattle.evaluator.specs.Promises.{CompareRead, CondRead, ConjRead, SimpleRead, Stored, BlockRun};
ghost use Rattle.evaluator.specs.Promises.{StmtRun, BranchRun};

use std::array;

// What is added to an expression's value.
const ZERO: u32 = 1073741824;

// A file's tokens, held as numbers.
#[derive(Clone, Copy)]
struct Text<'a> {
    kinds: &'a [u8],
    values: &'a [u16],
}

// A file, for a run: its tokens, and the lowest and the highest value of each variable, with 128 added.
#[derive(Clone, Copy)]
struct File<'a> {
    text: Text<'a>,
    lows: [u16; syntax::VARIABLES],
    highs: [u16; syntax::VARIABLES],
}

// An operand: a variable's slot, or one past all slots and a number, as what is added less what is taken away; and the
// token behind it.
// Stays (no plainer): a slot that is read may lie past all slots too, so an Option takes two tests where this takes one.
// Stays (no plainer): `next` stands beside each value; by a generic `Read<T>` each literal and each use is a level deeper.
#[derive(Clone, Copy)]
struct Atom {
    slot: usize,
    plus: u32,
    minus: u32,
    next: usize,
}

// The value of an expression in each lane, the lanes that lack one, and the token behind it.
#[derive(Clone, Copy)]
struct Sum {
    lanes: [u32; 16],
    lacks: u16,
    next: usize,
}

// The same of an expression without `mod`, or of its first operands: no lane lacks a value.
#[derive(Clone, Copy)]
struct Plain {
    lanes: [u32; 16],
    next: usize,
}

// Whether a condition holds in each lane, the lanes that lack a value, and the token behind it.
#[derive(Clone, Copy)]
struct Truth {
    holds: [bool; 16],
    lacks: u16,
    next: usize,
}

// Whether a statement ran in each lane with no fault, and the token behind it.
#[derive(Clone, Copy)]
struct Step {
    ok: [bool; 16],
    next: usize,
}

// The lanes in which a body ran with no fault, and the values after it there.
#[derive(Clone, Copy)]
pub struct Ran {
    pub ok: u16,
    pub values: [u16; 96],
}

impl Text<'_> {
    fn kind_at(&self, at: usize) -> u8
        ensures { result ≡ get_or self.now.kinds.now at no_kind }
    {
        self.kinds.get(at).copied().unwrap_or(syntax::NO_KIND)
    }

    fn value_at(&self, at: usize) -> u16
        ensures { result ≡ get_or self.now.values.now at 0 }
    {
        self.values.get(at).copied().unwrap_or(0)
    }

    // The place of the next token, or the end.
    fn after(&self, at: usize) -> usize
        requires { at ≤ length self.now.kinds.now }
        ensures { Next self.now.kinds.now at result }
    {
        if at < self.kinds.len() { at + 1 } else { at }
    }

    // The closing brace of the block that opens at a token, or the end where what is held is none.
    fn close_of(&self, brace: usize) -> usize
        requires { brace ≤ length self.now.kinds.now }
        ensures { Closes self.now.kinds.now self.now.values.now brace result }
    {
        let close = usize::from(self.value_at(brace));
        if brace <= close && close <= self.kinds.len() {
            return close;
        }
        self.kinds.len()
    }

    fn read_atom(&self, at: usize) -> Atom
        requires { Placed self.now.kinds.now at }
        ensures { AtomRead self.now.kinds.now self.now.values.now at result.slot result.plus result.minus result.next }
    {
        let kind = self.kind_at(at);
        let next = self.after(at);
        if kind == syntax::NAME {
            return Atom {
                slot: usize::from(self.value_at(at)),
                plus: 128,
                minus: 128,
                next,
            };
        }
        if kind == syntax::MINUS {
            return Atom {
                slot: syntax::VARIABLES,
                plus: 0,
                minus: u32::from(self.value_at(next)),
                next: self.after(next),
            };
        }
        Atom {
            slot: syntax::VARIABLES,
            plus: u32::from(self.value_at(at)),
            minus: 0,
            next,
        }
    }
}

// A variable's value in each lane, or a number in all.
fn operands(vars: &[u16; 96], slot: usize, plus: u32) -> [u32; 16]
    ensures { Adds vars.now slot plus result }
{
    if slot < syntax::VARIABLES {
        array::from_fn(|j| u32::from(vars[slot * 16 + j]))
    } else {
        [plus; 16]
    }
}

// Numbers with others added and others taken away, lane by lane.
fn moved(lanes: [u32; 16], plus: [u32; 16], minus: [u32; 16]) -> [u32; 16]
    requires { (j : ℕ) → j < 16
        → (get_or lanes j 0 + get_or plus j 0 < 4294967296) × (get_or minus j 0 ≤ get_or lanes j 0 + get_or plus j 0) }
    ensures { (j : ℕ) → j < 16 → get_or result j 0 ≡ get_or lanes j 0 + get_or plus j 0 - get_or minus j 0 }
{
    array::from_fn(|j| lanes[j] + plus[j] - minus[j])
}

// Sums with what a term adds less what it takes away, added in each lane or taken away.
#[inline(always)]
fn joined(lanes: [u32; 16], taken: bool, plus: [u32; 16], minus: u32) -> [u32; 16]
    requires near { Near 8192 lanes }
    requires small { Small plus }
    requires minus_bound { minus ≤ 65535 }
    ensures { Joined taken plus minus lanes result }
{
    let all = [minus; 16];
    if taken {
        return moved(lanes, all, plus);
    }
    moved(lanes, plus, all)
}

// The remainders of one operand by another.
fn divide(vars: &[u16; 96], left: Atom, right: Atom) -> sixteen::Rests
    requires operand { Operand left.slot left.plus left.minus }
    requires operand_2 { Operand right.slot right.plus right.minus }
    ensures { Remains vars.now left.slot left.plus left.minus right.slot right.plus
        right.minus result.lanes result.lacks }
{
    if right.slot < syntax::VARIABLES {
        let one = operands(vars, left.slot, left.plus);
        let two = operands(vars, right.slot, right.plus);
        return sixteen::by_lanes(one, left.minus, two, right.minus);
    }
    if left.slot < syntax::VARIABLES {
        let lanes = operands(vars, left.slot, left.plus);
        return sixteen::by_number(lanes, right.plus, right.minus);
    }
    sixteen::of_number(left.plus, left.minus, right.plus, right.minus)
}

// What is summed up to a term, with the term added or taken away.
fn eval_term(
    text: &Text<'_>,
    vars: &[u16; 96],
    lanes: [u32; 16],
    lacks: u16,
    taken: bool,
    at: usize,
) -> Sum
    requires placed { Placed text.now.kinds.now at }
    requires near { Near at lanes }
    ensures { TermRead text.now.kinds.now text.now.values.now vars.now taken lanes lacks at
        result.lanes result.lacks result.next }
{
    let left = text.read_atom(at);
    if text.kind_at(left.next) == syntax::KEY_MOD {
        let right = text.read_atom(text.after(left.next));
        let rests = divide(vars, left, right);
        return Sum {
            lanes: joined(lanes, taken, rests.lanes, 0),
            lacks: sets::union(lacks, rests.lacks),
            next: right.next,
        };
    }
    let plus = operands(vars, left.slot, left.plus);
    Sum {
        lanes: joined(lanes, taken, plus, left.minus),
        lacks,
        next: left.next,
    }
}

// An expression with or without `mod`.
fn eval_expr(text: &Text<'_>, vars: &[u16; 96], at: usize) -> Sum
    requires { Placed text.now.kinds.now at }
    ensures { ExprRead text.now.kinds.now text.now.values.now vars.now at result.lanes result.lacks
        result.next }
{
    let mut lanes = [ZERO; 16];
    let mut lacks: u16 = 0;
    let mut taken = false;
    let mut place = at;
    loop {
        let sum = eval_term(text, vars, lanes, lacks, taken, place);
        taken = match text.kind_at(sum.next) {
            syntax::PLUS => false,
            syntax::MINUS => true,
            _ => return sum,
        };
        lanes = sum.lanes;
        lacks = sum.lacks;
        place = text.after(sum.next);
    }
}

// What is summed up to an operand, with the operand added or taken away.
fn eval_atom(text: &Text<'_>, vars: &[u16; 96], lanes: [u32; 16], taken: bool, at: usize) -> Plain
    requires placed { Placed text.now.kinds.now at }
    requires near { Near at lanes }
    ensures { AtomSum text.now.kinds.now text.now.values.now vars.now taken lanes at result.lanes
        result.next }
{
    let atom = text.read_atom(at);
    let plus = operands(vars, atom.slot, atom.plus);
    Plain {
        lanes: joined(lanes, taken, plus, atom.minus),
        next: atom.next,
    }
}

// An expression, if it has no `mod`: none only where a `mod` stands.
// Stays (speed): with one way, `eval_expr`, for both kinds a program that asks 45,000 conditions and runs 20,000 bodies
// took 167.0 million instructions, and it takes 151.2; before the tokens were a struct it took 155.5.
fn eval_plain(text: &Text<'_>, vars: &[u16; 96], at: usize) -> Option<Plain>
    requires { Placed text.now.kinds.now at }
    ensures plain { IfSome result (λ plain. ExprRead text.now.kinds.now text.now.values.now vars.now at plain.lanes 0
        plain.next) }
    ensures none { IfNone result (HasMod text.now.kinds.now) }
{
    let mut lanes = [ZERO; 16];
    let mut taken = false;
    let mut place = at;
    loop {
        let sum = eval_atom(text, vars, lanes, taken, place);
        taken = match text.kind_at(sum.next) {
            syntax::PLUS => false,
            syntax::MINUS => true,
            syntax::KEY_MOD => return None,
            _ => return Some(sum),
        };
        lanes = sum.lanes;
        place = text.after(sum.next);
    }
}

#[inline(always)]
fn compare(kind: u8, a: [u32; 16], b: [u32; 16]) -> [bool; 16]
    ensures { (j : ℕ) → j < 16 → get_or result j false ≡ test_of kind (get_or a j 0) (get_or b j 0) }
{
    match kind {
        syntax::BELOW => sixteen::below(a, b),
        syntax::ABOVE => sixteen::below(b, a),
        syntax::AT_MOST => sixteen::other(sixteen::below(b, a)),
        syntax::AT_LEAST => sixteen::other(sixteen::below(a, b)),
        syntax::DIFFERS => sixteen::union(sixteen::below(a, b), sixteen::below(b, a)),
        _ => sixteen::other(sixteen::union(sixteen::below(a, b), sixteen::below(b, a))),
    }
}

// A comparison, with or without `mod`. A call of its own, so that the way without `mod` keeps few registers.
#[inline(never)]
fn compare_mod(text: &Text<'_>, vars: &[u16; 96], at: usize) -> Truth
    requires { Placed text.now.kinds.now at }
    ensures { CompareRead text.now.kinds.now text.now.values.now vars.now at result.holds
        result.lacks result.next }
{
    let one = eval_expr(text, vars, at);
    let kind = text.kind_at(one.next);
    let two = eval_expr(text, vars, text.after(one.next));
    Truth {
        holds: compare(kind, one.lanes, two.lanes),
        lacks: sets::union(one.lacks, two.lacks),
        next: two.next,
    }
}

// A comparison, if it has no `mod`: none only where a `mod` stands.
fn compare_plain(text: &Text<'_>, vars: &[u16; 96], at: usize) -> Option<Truth>
    requires { Placed text.now.kinds.now at }
    ensures truth { IfSome result (λ truth. CompareRead text.now.kinds.now text.now.values.now vars.now at truth.holds
        truth.lacks truth.next) }
    ensures none { IfNone result (HasMod text.now.kinds.now) }
{
    let one = eval_plain(text, vars, at)?;
    let two = eval_plain(text, vars, text.after(one.next))?;
    Some(Truth {
        holds: compare(text.kind_at(one.next), one.lanes, two.lanes),
        lacks: 0,
        next: two.next,
    })
}

fn eval_compare(text: &Text<'_>, vars: &[u16; 96], at: usize) -> Truth
    requires { Placed text.now.kinds.now at }
    ensures { CompareRead text.now.kinds.now text.now.values.now vars.now at result.holds
        result.lacks result.next }
{
    if let Some(truth) = compare_plain(text, vars, at) {
        return truth;
    }
    // Handed on by its fields, so that the way without `mod` copies nothing.
    let Truth { holds, lacks, next } = compare_mod(text, vars, at);
    Truth { holds, lacks, next }
}

// Stays (no plainer): one function for this chain and that of `eval_conj` takes the first truth, the join, the mark and
// the call of a part by a parameter.
#[cycle(eval_cond_eval_conj_eval_simple)]
fn eval_cond(text: &Text<'_>, vars: &[u16; 96], at: usize) -> Truth
    requires { Placed text.now.kinds.now at }
    ensures { CondRead text.now.kinds.now text.now.values.now vars.now at result.holds result.lacks
        result.next }
{
    let mut holds = [false; 16];
    let mut lacks: u16 = 0;
    let mut place = at;
    loop {
        let conj = eval_conj(text, vars, place);
        // Stays (proof): the array that a call gives is bound by `let`; the borrow checker does not cover it laid in `holds`.
        let all = sixteen::union(holds, conj.holds);
        holds = all;
        lacks = sets::union(lacks, conj.lacks);
        if text.kind_at(conj.next) != syntax::OR_OR {
            return Truth {
                holds,
                lacks,
                next: conj.next,
            };
        }
        place = text.after(conj.next);
    }
}

#[cycle(eval_cond_eval_conj_eval_simple)]
fn eval_conj(text: &Text<'_>, vars: &[u16; 96], at: usize) -> Truth
    requires { Placed text.now.kinds.now at }
    ensures { ConjRead text.now.kinds.now text.now.values.now vars.now at result.holds result.lacks
        result.next }
{
    let mut holds = [true; 16];
    let mut lacks: u16 = 0;
    let mut place = at;
    loop {
        let simple = eval_simple(text, vars, place);
        // Stays (proof): as in `eval_cond`.
        let all = sixteen::both(holds, simple.holds);
        holds = all;
        lacks = sets::union(lacks, simple.lacks);
        if text.kind_at(simple.next) != syntax::AND_AND {
            return Truth {
                holds,
                lacks,
                next: simple.next,
            };
        }
        place = text.after(simple.next);
    }
}

#[cycle(eval_cond_eval_conj_eval_simple)]
fn eval_simple(text: &Text<'_>, vars: &[u16; 96], at: usize) -> Truth
    requires { Placed text.now.kinds.now at }
    ensures { SimpleRead text.now.kinds.now text.now.values.now vars.now at result.holds
        result.lacks result.next }
{
    let kind = text.kind_at(at);
    let next = text.after(at);
    if kind == syntax::BANG {
        let simple = eval_simple(text, vars, next);
        return Truth {
            holds: sixteen::other(simple.holds),
            ..simple
        };
    }
    if kind == syntax::LPAREN {
        let cond = eval_cond(text, vars, next);
        return Truth {
            next: text.after(cond.next),
            ..cond
        };
    }
    if kind == syntax::KEY_TRUE {
        return Truth {
            holds: [true; 16],
            lacks: 0,
            next,
        };
    }
    if kind == syntax::KEY_FALSE {
        return Truth {
            holds: [false; 16],
            lacks: 0,
            next,
        };
    }
    eval_compare(text, vars, at)
}

// The lanes in which the condition that begins at a token holds.
pub fn holds(kinds: &[u8], values: &[u16], vars: &[u16; 96], at: usize) -> u16
    ensures { (vs : List Var) (as' : List ℤ) (ls us : List Lexeme) (c : Cond) (j : ℕ) → j < 16
        → Codes vs ls kinds.now values.now → Biased vs as' (lane vars.now j)
        → drop at ls ≡ spell_cond c ++ us → EndsCond us → length ls < 8193
        → member result j ≡ truth c vs as' }
{
    if syntax::FILE_BYTES < kinds.len() {
        return 0;
    }
    if kinds.len() < at {
        return 0;
    }
    let cond = eval_cond(&Text { kinds, values }, vars, at);
    sets::minus(sixteen::mask(cond.holds), cond.lacks)
}

// The new value in the lanes of a set, with 128 added, and the old one in the others.
fn merged(on: [bool; 16], new: [u32; 16], old: [u32; 16]) -> [u32; 16]
    requires { Near 8193 new }
    ensures { (j : ℕ) → j < 16 → get_or result j 0 ≡ cond (get_or on j false) (get_or new j 0 + 128) (get_or old j 0) }
{
    array::from_fn(|j| if on[j] { new[j] + 128 } else { old[j] })
}

// Stores a value in each lane.
fn put(vars: &mut [u16; 96], slot: usize, lanes: [u32; 16])
    requires { (length vars.old ≡ 96) × (slot < most_vars) }
    ensures { (length vars.new ≡ 96) × ((j : ℕ) → j < 16
        → lane vars.new j ≡ set (lane vars.old j) slot (get_or lanes j 0 % 65536)) }
{
    for j in 0..16 {
        vars[slot * 16 + j] = (lanes[j] % 65536) as u16;
    }
}

// An assignment in the lanes of a set: it stores the values, and says in which lanes they are in range, or nothing was
// stored.
fn store(
    file: &File<'_>,
    vars: &mut [u16; 96],
    on: [bool; 16],
    slot: usize,
    sums: [u32; 16],
) -> [bool; 16]
    requires vars_len { length vars.old ≡ 96 }
    requires near { Near 8193 sums }
    ensures { Stored file.now.lows file.now.highs vars.old on slot sums result vars.new }
{
    if slot < syntax::VARIABLES {
        let low = [u32::from(file.lows[slot]) + (ZERO - 128); 16];
        let high = [u32::from(file.highs[slot]) + (ZERO - 128); 16];
        let out = sixteen::union(sixteen::below(sums, low), sixteen::below(high, sums));
        let ok = sixteen::other(sixteen::both(on, out));
        let old = operands(vars, slot, 0);
        put(vars, slot, merged(on, sums, old));
        return ok;
    }
    sixteen::other(on)
}

// An assignment with `mod`, a call of its own as `compare_mod` is.
#[inline(never)]
fn assign_mod(file: &File<'_>, vars: &mut [u16; 96], on: [bool; 16], at: usize) -> Step
    requires placed { Placed file.now.text.kinds.now at }
    requires vars_len { length vars.old ≡ 96 }
    requires at_in_bounds { at < length file.now.text.kinds.now }
    requires no_if { get_or file.now.text.kinds.now at no_kind ≡ kind_of (key k_if) → ⊥ }
    ensures { StmtRun file.now.text.kinds.now file.now.text.values.now file.now.lows file.now.highs vars.old on at
        result.ok vars.new result.next }
{
    let text = &file.text;
    let second = text.after(at);
    let third = text.after(second);
    let sum = eval_expr(text, vars, third);
    let assigned = usize::from(text.value_at(at));
    let stored = store(file, vars, on, assigned, sum.lanes);
    Step {
        ok: sixteen::faulted(stored, on, sum.lacks),
        next: text.after(sum.next),
    }
}

// Statements up to the closing brace, in the lanes of a set: whether they ran there with no fault.
#[cycle(run_block_run_branch_run_stmt)]
fn run_block(file: &File<'_>, vars: &mut [u16; 96], on: [bool; 16], at: usize) -> [bool; 16]
    requires placed { Placed file.now.text.kinds.now at }
    requires vars_len { length vars.old ≡ 96 }
    ensures { BlockRun file.now.text.kinds.now file.now.text.values.now file.now.lows file.now.highs vars.old on at
        result vars.new }
{
    let mut ok = [true; 16];
    let mut place = at;
    loop {
        let kind = file.text.kind_at(place);
        if kind == syntax::RBRACE {
            return ok;
        }
        if kind == syntax::NO_KIND {
            return ok;
        }
        let one = run_stmt(file, vars, on, place);
        // Stays (proof): as in `eval_cond`.
        let all = sixteen::both(ok, one.ok);
        ok = all;
        place = one.next;
    }
}

#[cycle(run_block_run_branch_run_stmt)]
fn run_stmt(file: &File<'_>, vars: &mut [u16; 96], on: [bool; 16], at: usize) -> Step
    requires placed { Placed file.now.text.kinds.now at }
    requires vars_len { length vars.old ≡ 96 }
    requires at_in_bounds { at < length file.now.text.kinds.now }
    ensures { StmtRun file.now.text.kinds.now file.now.text.values.now file.now.lows file.now.highs vars.old on at
        result.ok vars.new result.next }
{
    let text = &file.text;
    let second = text.after(at);
    let third = text.after(second);
    if text.kind_at(at) == syntax::KEY_IF {
        let cond = eval_cond(text, vars, third);
        let open = text.after(cond.next);
        let step = run_branch(file, vars, on, open, cond.holds);
        return Step {
            ok: sixteen::faulted(step.ok, on, cond.lacks),
            next: step.next,
        };
    }
    let Some(sum) = eval_plain(text, vars, third) else {
        return assign_mod(file, vars, on, at);
    };
    let assigned = usize::from(text.value_at(at));
    Step {
        ok: store(file, vars, on, assigned, sum.lanes),
        next: text.after(sum.next),
    }
}

// The block that opens at a token where the condition in front of it holds, and where not the one behind `else`, if
// there is one.
#[cycle(run_block_run_branch_run_stmt)]
fn run_branch(
    file: &File<'_>,
    vars: &mut [u16; 96],
    on: [bool; 16],
    brace: usize,
    holds: [bool; 16],
) -> Step
    requires placed { Placed file.now.text.kinds.now brace }
    requires vars_len { length vars.old ≡ 96 }
    ensures { BranchRun file.now.text.kinds.now file.now.text.values.now file.now.lows file.now.highs vars.old on brace
        holds result.ok vars.new result.next }
{
    let text = &file.text;
    let close = text.close_of(brace);
    let next = text.after(close);
    let first = text.after(brace);
    let ok = run_block(file, vars, sixteen::both(on, holds), first);
    if text.kind_at(next) == syntax::KEY_ELSE {
        let open = text.after(next);
        let last = text.close_of(open);
        let behind = text.after(last);
        let second = text.after(open);
        let more = run_block(file, vars, sixteen::unless(on, holds), second);
        return Step {
            ok: sixteen::both(ok, more),
            next: behind,
        };
    }
    Step { ok, next }
}

// The values after the body that begins at a token.
pub fn run_body(
    kinds: &[u8],
    values: &[u16],
    lows: [u16; syntax::VARIABLES],
    highs: [u16; syntax::VARIABLES],
    vars: [u16; 96],
    at: usize,
) -> Ran
    ensures { (vs : List Var) (as' : List ℤ) (ls us : List Lexeme) (b : Block) (j : ℕ) → j < 16
        → Codes vs ls kinds.now values.now → Biased vs as' (lane vars j) → Ranges vs lows highs
        → drop at ls ≡ spell_block b ++ (mark rbrace ∷ us) → length ls < 8193
        → RunAs vs (member result.ok j) (lane result.values j) (run_block b vs as') }
{
    let mut ended = vars;
    if syntax::FILE_BYTES < kinds.len() {
        return Ran {
            ok: 0,
            values: ended,
        };
    }
    if kinds.len() < at {
        return Ran {
            ok: 0,
            values: ended,
        };
    }
    let file = File {
        text: Text { kinds, values },
        lows,
        highs,
    };
    let lanes = run_block(&file, &mut ended, [true; 16], at);
    Ran {
        ok: sixteen::mask(lanes),
        values: ended,
    }
}
