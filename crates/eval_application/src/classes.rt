// The classes that applications name.

use lang_meaning::ClassId;

/// Functions.
pub const FUNCTION: ClassId = 6;

/// Lists.
pub const LIST: ClassId = 8;

/// Serious conditions.
pub const SERIOUS_CONDITION: ClassId = 18;

/// The conditions of a transfer, or a next method, that is not there.
pub const CONTROL_ERROR: ClassId = 22;

/// The conditions of a wrong number of arguments.
pub const PROGRAM_ERROR: ClassId = 24;
