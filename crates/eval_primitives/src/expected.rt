// The built-in classes that primitives expect of their arguments, and those of the conditions that they signal.

use lang_meaning::ClassId;

pub(crate) const VECTOR: ClassId = 3;

pub(crate) const STRING: ClassId = 4;

pub(crate) const CHARACTER: ClassId = 5;

pub(crate) const CONS: ClassId = 9;

pub(crate) const SYMBOL: ClassId = 10;

pub(crate) const INTEGER: ClassId = 13;

pub(crate) const STANDARD_CLASS: ClassId = 16;

pub(crate) const STANDARD_OBJECT: ClassId = 17;

pub(crate) const SERIOUS_CONDITION: ClassId = 18;

pub(crate) const PROGRAM_ERROR: ClassId = 24;

pub(crate) const DIVISION_BY_ZERO: ClassId = 27;

pub(crate) const INTEGER_OVERFLOW: ClassId = 28;
