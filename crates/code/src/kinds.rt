//! The kinds of slots in which a program stands, beside those of values; kinds below 16 are leaves.
//! They are numbers, as any number may stand in the lent words; a `match` decodes each once, into an enum.

pub const VARIABLE: u32 = 5;

/// The kinds of the patterns that match anything, without and with a name.
pub const ANY: u32 = 6;

pub const BIND: u32 = 7;

pub const MAKE_TUPLE: u32 = 8;

pub const MAKE_PAIR: u32 = 9;

pub const CALL: u32 = 10;

pub const SPAWN: u32 = 11;

pub const OPERATOR: u32 = 12;

pub const BUILTIN: u32 = 13;

pub const OPERAND: u32 = 18;

pub const FAR: u32 = 19;

pub const CASE: u32 = 20;

pub const RECEIVE: u32 = 21;

pub const UNTIL: u32 = 22;

pub const CATCH: u32 = 24;

pub const STATEMENT: u32 = 25;

/// The kind of a clause before others.
pub const CLAUSES: u32 = 27;

pub const FUNCTIONS: u32 = 29;

/// Chains of values in the heap: what names are bound to, operands so far (the last one first), and messages.
pub const VALUES: u32 = 31;
