// The kinds of nodes that a run meets, by their numbers in the table: `kind_of` of specs/Table. They stay numbers: a run tests them by their order, and
// an enum of operators between number and operation measures 2 % more instructions (as plain Rust).

// Arithmetic.
pub const NUMBER: u32 = 1;

pub const VARIABLE: u32 = 2;

pub const PLUS: u32 = 3;

pub const MINUS: u32 = 4;

pub const TIMES: u32 = 5;

pub const OVER: u32 = 6;

pub const REST: u32 = 7;

pub const CHOOSE: u32 = 8;

// Boolean.
pub const TRUTH: u32 = 16;

pub const FALSEHOOD: u32 = 17;

pub const EQUAL: u32 = 18;

pub const AT_MOST: u32 = 19;

pub const LESS: u32 = 20;

pub const NEGATION: u32 = 21;

// Statements.
pub const SKIP: u32 = 32;

pub const ASSIGN: u32 = 33;

pub const SEQUENCE: u32 = 34;

pub const IF: u32 = 35;
