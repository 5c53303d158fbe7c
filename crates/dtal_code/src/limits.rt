//! The limits of the text and of acceptance.

/// The greatest number of a variable, a label, a function, or a row of lines, and the most labels, instructions and functions.
pub const LAST_NUMBER: u32 = 4_294_967_295;

/// The greatest number of a type.
pub const LAST_TYPE: u32 = 65_535;

/// The most types that a text writes.
pub const MOST_TYPES: u32 = 65_534;

/// How many places are registers: those below this number.
pub const REGISTERS: u32 = 16;

/// How many places an activation has.
pub const PLACES: u32 = 256;

/// The most places or types that a list in parentheses has.
pub const MOST_LISTED: u32 = 8;

/// The most variables of a context.
pub const MOST_VARIABLES: u32 = 1024;

/// The most rows of a context, and of a list of rows.
pub const MOST_ROWS: u32 = 512;
