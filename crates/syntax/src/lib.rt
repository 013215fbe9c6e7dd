// Constants of the definitions in specs/, for all crates. The kinds of tokens by number, as `Kind` has them
// (crates/syntax/specs/Held/Kind.antt).
#![tactic(auto)]

pub const NAME: u8 = 0;

pub const NUMBER: u8 = 1;

// The marks, from 2 on.
pub const LBRACE: u8 = 2;

pub const RBRACE: u8 = 3;

pub const LPAREN: u8 = 4;

pub const RPAREN: u8 = 5;

pub const SEMICOLON: u8 = 6;

pub const EQUALS: u8 = 7;

pub const DOTS: u8 = 8;

pub const BECOMES: u8 = 9;

pub const SAME: u8 = 10;

pub const DIFFERS: u8 = 11;

pub const BELOW: u8 = 12;

pub const AT_MOST: u8 = 13;

pub const ABOVE: u8 = 14;

pub const AT_LEAST: u8 = 15;

pub const PLUS: u8 = 16;

pub const MINUS: u8 = 17;

pub const BANG: u8 = 18;

pub const AND_AND: u8 = 19;

pub const OR_OR: u8 = 20;

// The keywords, from 32 on.
pub const FIRST_KEYWORD: u8 = 32;

pub const KEY_MONITOR: u8 = 32;

pub const KEY_VAR: u8 = 33;

pub const KEY_IN: u8 = 34;

pub const KEY_KEEP: u8 = 35;

pub const KEY_METHOD: u8 = 36;

pub const KEY_WAITUNTIL: u8 = 37;

pub const KEY_IF: u8 = 38;

pub const KEY_ELSE: u8 = 39;

pub const KEY_TRUE: u8 = 40;

pub const KEY_FALSE: u8 = 41;

pub const KEY_TRY: u8 = 42;

pub const KEY_MOD: u8 = 43;

// How many keywords there are.
pub const KEYWORDS: u8 = 12;

// What stands for a kind where a file has no token.
pub const NO_KIND: u8 = 255;

// The limits on a file, as `Limits` has them (crates/syntax/specs/Limits.antt): bytes (1), bytes of a word and digits
// of a number (2), tokens, and brackets and braces open at once (3), variables, methods and tries (5).
pub const FILE_BYTES: usize = 8192;

pub const WORD_BYTES: usize = 16;

pub const NUMBER_DIGITS: usize = 3;

pub const TOKENS: usize = 1024;

pub const OPEN: usize = 12;

pub const VARIABLES: usize = 6;

pub const METHODS: usize = 8;

pub const TRIES: usize = 16;
