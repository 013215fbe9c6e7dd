// The pass over a file's tokens that answers 6, by the names declared so far, and the pass that gives each name its slot
// among the variables.
#![tactic(auto)]

ghost use Rattle.std.specs.Prelude.{◌≡◌, ◌&&◌, ℕ, ◌≤◌, List, [], length, eqb};
ghost use Rattle.std.proofs.Math.Option.{none};
ghost use Rattle.syntax.specs.Bytes.{same_bytes};
ghost use Rattle.syntax.specs.Limits.{most_methods};
ghost use Rattle.syntax.specs.Token.{Token, Lexeme, name, number};
ghost use Rattle.syntax.specs.Held.Kind.{kind_of, value_of, name_kind, Words};
ghost use Rattle.meaning.specs.Decide.Check.{past_limit, member, misnamed};
ghost use Rattle.passes.specs.Pass.{found_of};
ghost use Rattle.names.specs.Slots.{titles_of, slot_in, slot_or_value, Resolved, NameAt, Titles, Grows, Judges};

// Where a name begins in the file, and its length.
#[derive(Clone, Copy)]
pub struct Name {
    pub start: u16,
    pub len: u16,
}

impl Name {
    // Whether two names of the file are the same bytes.
    fn is_same(self, file: &[u8], other: Name) -> bool
        ensures { (x y : List ℕ) → NameAt file.now x self.start self.len
            → NameAt file.now y other.start other.len → result ≡ same_bytes x y }
    {
        let start = usize::from(self.start);
        let end = start + usize::from(self.len);
        let other_start = usize::from(other.start);
        let other_end = other_start + usize::from(other.len);
        if file.len() < end {
            return false;
        }
        if file.len() < other_end {
            return false;
        }
        file[start..end] == file[other_start..other_end]
    }
}

// Declared names, as many as there may be methods, and how many they are.
#[derive(Clone, Copy)]
pub struct Names {
    pub list: [Name; syntax::METHODS],
    pub count: usize,
}

impl Names {
    fn none() -> Self
        ensures { (file : List ℕ) → Titles file [] result }
    {
        Names {
            list: [Name { start: 0, len: 0 }; syntax::METHODS],
            count: 0,
        }
    }

    // The slot of a name among the declared ones, or their count.
    fn slot_of(self, file: &[u8], name: Name) -> usize
        ensures within { result ≤ most_methods }
        ensures slot { (titles : List (List ℕ)) (x : List ℕ) → Titles file.now titles self
            → NameAt file.now x name.start name.len → result ≡ slot_in titles x }
    {
        let few = self.count.min(syntax::METHODS);
        for i in 0..few {
            if self.list[i].is_same(file, name) {
                return i;
            }
        }
        few
    }

    // Is a name among the declared ones?
    fn has(self, file: &[u8], name: Name) -> bool
        ensures { (titles : List (List ℕ)) (x : List ℕ) → Titles file.now titles self
            → NameAt file.now x name.start name.len → result ≡ member x titles }
    {
        self.slot_of(file, name) < self.count
    }

    // One name more, where it is to be added and there is room.
    fn declared(self, adds: bool, name: Name) -> Self
        ensures { Grows self adds name.start name.len result }
    {
        let at = self.count;
        if !adds {
            return self;
        }
        if syntax::METHODS <= at {
            return self;
        }
        let mut more = self;
        more.list[at] = name;
        more.count = at + 1;
        more
    }
}

// Is this a name behind the keyword?
fn declares(kind: u8, before: u8, keyword: u8) -> bool
    ensures { result ≡ (eqb kind name_kind && eqb before keyword) }
{
    kind == syntax::NAME && before == keyword
}

// Is this token a name declared twice among its kind, or a variable used that is not declared?
fn wrong(file: &[u8], vars: Names, methods: Names, kind: u8, before: u8, name: Name) -> bool
    ensures { Judges file.now vars methods kind before name.start name.len result }
{
    if kind != syntax::NAME {
        return false;
    }
    if before == syntax::KEY_METHOD {
        return methods.has(file, name);
    }
    if before == syntax::KEY_MONITOR {
        return false;
    }
    let known = vars.has(file, name);
    if before == syntax::KEY_VAR {
        return known;
    }
    !known
}

// 6: a name declared twice among its kind, or a variable used that is not declared. (With at most six variables and
// eight methods.)
pub fn find_misnamed(file: &[u8], kinds: &[u8], values: &[u16], places: &[u16]) -> Option<u16>
    ensures { (ts : List Token)
        → Words file.now ts kinds.now values.now places.now
        → past_limit 0 0 0 0 ts ≡ none → result ≡ found_of (misnamed (number 0) [] [] ts) }
{
    if values.len() != kinds.len() {
        return None;
    }
    if places.len() != kinds.len() {
        return None;
    }
    let mut vars = Names::none();
    let mut methods = Names::none();
    // Before the first token a kind that declares nothing.
    let mut before = syntax::NUMBER;
    for (i, &kind) in kinds.iter().enumerate() {
        let name = Name {
            start: places[i],
            len: values[i],
        };
        if wrong(file, vars, methods, kind, before, name) {
            return Some(name.start);
        }
        vars = vars.declared(declares(kind, before, syntax::KEY_VAR), name);
        methods = methods.declared(declares(kind, before, syntax::KEY_METHOD), name);
        before = kind;
    }
    None
}

// The variables of a file, in order.
fn variables(kinds: &[u8], values: &[u16], places: &[u16]) -> Names
    ensures { (file : List ℕ) (ts : List Token)
        → Words file ts kinds.now values.now places.now
        → past_limit 0 0 0 0 ts ≡ none → Titles file (titles_of ts) result }
{
    let mut vars = Names::none();
    if values.len() != kinds.len() {
        return vars;
    }
    if places.len() != kinds.len() {
        return vars;
    }
    // Before the first token a kind that declares nothing.
    let mut before = syntax::NUMBER;
    for (i, &kind) in kinds.iter().enumerate() {
        let name = Name {
            start: places[i],
            len: values[i],
        };
        vars = vars.declared(declares(kind, before, syntax::KEY_VAR), name);
        before = kind;
    }
    vars
}

// A name's slot, and any other token's value.
fn slot_or_value(file: &[u8], vars: Names, kind: u8, start: u16, value: u16) -> u16
    ensures { (titles : List (List ℕ)) (l : Lexeme) → Titles file.now titles vars → kind ≡ kind_of l
        → value ≡ value_of l
        → ((x : List ℕ) → l ≡ name x → NameAt file.now x start value) → result ≡ slot_or_value titles l }
{
    if kind == syntax::NAME {
        return vars.slot_of(file, Name { start, len: value }) as u16;
    }
    value
}

// What the evaluator looks up at each token: a name's slot among the variables, and any other token's value.
pub fn resolve(file: &[u8], kinds: &[u8], values: &[u16], places: &[u16], operands: &mut [u16])
    ensures { (ts : List Token)
        → Words file.now ts kinds.now values.now places.now
        → past_limit 0 0 0 0 ts ≡ none → length operands.old ≡ length ts
        → Resolved ts operands.new }
{
    if values.len() != kinds.len() {
        return;
    }
    if places.len() != kinds.len() {
        return;
    }
    if operands.len() != kinds.len() {
        return;
    }
    let vars = variables(kinds, values, places);
    for (i, &kind) in kinds.iter().enumerate() {
        operands[i] = slot_or_value(file, vars, kind, places[i], values[i]);
    }
}
