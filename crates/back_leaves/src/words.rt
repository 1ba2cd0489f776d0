// Words, addresses, offsets and numbers of classes that lowered code names.

/// The greatest offset that an instruction holds.
pub const MOST_OFFSET: u32 = 2047;

/// Registers whose numbers are not below this one are not given: there is no memory for code of so many.
pub const MOST_REGISTERS: usize = 1 << 60;

/// The number of the first primitive is behind those of procedures; that many primitives there are.
pub const PRIMITIVES: usize = 58;

/// The symbol t.
pub const TRUE_ADDRESS: u32 = 144;

/// The innermost control record that stands, and the record of the innermost exit that is valid.
pub const CURRENT: i32 = 184;

pub const LINK: i32 = 188;

/// The serial number that was given last.
pub const SERIALS: i32 = 192;

/// The record to which a transfer goes that is under way, and where its landing goes on.
pub const TARGET: i32 = 196;

pub const LANDING: i32 = 200;

/// The innermost handler and the innermost dynamic binding.
pub const HANDLERS: i32 = 204;

pub const BINDINGS: i32 = 208;

/// The site of the form that may signal a condition.
pub const SITE_ADDRESS: u32 = 212;

pub const SITE: i32 = 212;

/// The record of the end of the program.
pub const END: i32 = 216;

/// The words of control records, by offsets.
pub const RECORD_SERIAL: i32 = 0;

pub const RECORD_KIND: i32 = 4;

pub const RECORD_OUTER: i32 = 8;

pub const RECORD_LINK: i32 = 12;

pub const RECORD_TAG: i32 = 16;

pub const RECORD_MARK: i32 = 20;

pub const RECORD_WORDS: u32 = 6;

/// What a record is for.
pub const EXIT_KIND: u32 = 0;

pub const CATCH_KIND: u32 = 1;

pub const CLEANUP_KIND: u32 = 2;

pub const SIGNAL_KIND: u32 = 3;

pub const END_KIND: u32 = 4;

/// The words of a handler's cell, and of a binding's.
pub const HANDLER_FUNCTION: i32 = 0;

pub const HANDLER_OUTER: i32 = 4;

pub const HANDLER_WORDS: u32 = 2;

pub const BINDING_WORDS: u32 = 3;

/// The word behind the last method of a chain.
pub const CHAIN_END: u32 = 4;

/// Where what a function captured begins, from a pointer to it.
pub const CAPTURED: u32 = 6;

/// The classes of conditions, and of functions, by their numbers.
pub const FUNCTION_CLASS: u32 = 6;

pub const PROGRAM_ERROR_CLASS: u32 = 24;

pub const LIST_CLASS: u32 = 8;

pub const SERIOUS_CONDITION_CLASS: u32 = 18;

pub const CONTROL_ERROR_CLASS: u32 = 22;

pub const UNBOUND_VARIABLE_CLASS: u32 = 31;

pub const UNDEFINED_FUNCTION_CLASS: u32 = 32;

/// The routines, by how many stand before them.
pub const TRANSFER: usize = 0;

pub const LEAVE: usize = 1;

pub const THROW: usize = 2;

pub const CONTINUE: usize = 3;

pub const RAISE: usize = 4;

pub const SIGNALLED: usize = 5;

pub const PENDING: usize = 6;

pub const FAILING: usize = 7;

pub const FAILING_WITH: usize = 8;

pub const DOMAIN: usize = 9;

pub const FUNCTION: usize = 10;

pub const APPLY: usize = 11;

pub const GENERIC: usize = 12;

pub const CHAIN: usize = 13;

pub const NEXT: usize = 14;

pub const LEVEL: usize = 15;

pub const LIST: usize = 16;

pub const METHOD: usize = 17;

pub const BINDING: usize = 18;

pub const IS_FUNCTION: usize = 19;

pub const CLASS: usize = 20;

/// How many routines there are.
pub const ROUTINES: usize = 21;
