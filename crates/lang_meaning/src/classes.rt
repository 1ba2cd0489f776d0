// The built-in classes.

ghost use Rattle.std.specs.Prelude.{◌≡◌, ◌≤◌, Some, slice_get, MatchOption};
ghost use Rattle.lang_meaning.specs.BuiltIn.{class_texts};
ghost use Rattle.lang_meaning.specs.BuiltInRows.{IsBuiltIn, AreBuiltIn};

use crate::program::ClassId;

/// How many classes are built in; those of a file have the numbers from here on.
pub const BUILT_IN_CLASSES: ClassId = 34;

/// A built-in class: its name, the classes above it in the order of its precedence list, and how many slots it has.
pub struct BuiltInClass {
    pub name: &'static str,
    pub above: &'static [ClassId],
    pub slots: usize,
}

// The built-in classes (ISO/IEC 13816:2007, 15 and 29.3), each at its number.
const BUILT_IN: &[BuiltInClass] = &[
    BuiltInClass {
        name: "<object>",
        above: &[],
        slots: 0,
    },
    BuiltInClass {
        name: "<basic-array>",
        above: &[0],
        slots: 0,
    },
    BuiltInClass {
        name: "<basic-vector>",
        above: &[1, 0],
        slots: 0,
    },
    BuiltInClass {
        name: "<general-vector>",
        above: &[2, 1, 0],
        slots: 0,
    },
    BuiltInClass {
        name: "<string>",
        above: &[2, 1, 0],
        slots: 0,
    },
    BuiltInClass {
        name: "<character>",
        above: &[0],
        slots: 0,
    },
    BuiltInClass {
        name: "<function>",
        above: &[0],
        slots: 0,
    },
    BuiltInClass {
        name: "<generic-function>",
        above: &[6, 0],
        slots: 0,
    },
    BuiltInClass {
        name: "<list>",
        above: &[0],
        slots: 0,
    },
    BuiltInClass {
        name: "<cons>",
        above: &[8, 0],
        slots: 0,
    },
    BuiltInClass {
        name: "<symbol>",
        above: &[0],
        slots: 0,
    },
    BuiltInClass {
        name: "<null>",
        above: &[10, 8, 0],
        slots: 0,
    },
    BuiltInClass {
        name: "<number>",
        above: &[0],
        slots: 0,
    },
    BuiltInClass {
        name: "<integer>",
        above: &[12, 0],
        slots: 0,
    },
    BuiltInClass {
        name: "<stream>",
        above: &[0],
        slots: 0,
    },
    BuiltInClass {
        name: "<built-in-class>",
        above: &[0],
        slots: 0,
    },
    BuiltInClass {
        name: "<standard-class>",
        above: &[0],
        slots: 0,
    },
    BuiltInClass {
        name: "<standard-object>",
        above: &[0],
        slots: 0,
    },
    BuiltInClass {
        name: "<serious-condition>",
        above: &[0],
        slots: 0,
    },
    BuiltInClass {
        name: "<error>",
        above: &[18, 0],
        slots: 0,
    },
    BuiltInClass {
        name: "<storage-exhausted>",
        above: &[18, 0],
        slots: 0,
    },
    BuiltInClass {
        name: "<arithmetic-error>",
        above: &[19, 18, 0],
        slots: 0,
    },
    BuiltInClass {
        name: "<control-error>",
        above: &[19, 18, 0],
        slots: 0,
    },
    BuiltInClass {
        name: "<parse-error>",
        above: &[19, 18, 0],
        slots: 0,
    },
    BuiltInClass {
        name: "<program-error>",
        above: &[19, 18, 0],
        slots: 0,
    },
    BuiltInClass {
        name: "<simple-error>",
        above: &[19, 18, 0],
        slots: 2,
    },
    BuiltInClass {
        name: "<stream-error>",
        above: &[19, 18, 0],
        slots: 0,
    },
    BuiltInClass {
        name: "<division-by-zero>",
        above: &[21, 19, 18, 0],
        slots: 0,
    },
    BuiltInClass {
        name: "<integer-overflow>",
        above: &[21, 19, 18, 0],
        slots: 0,
    },
    BuiltInClass {
        name: "<domain-error>",
        above: &[24, 19, 18, 0],
        slots: 2,
    },
    BuiltInClass {
        name: "<undefined-entity>",
        above: &[24, 19, 18, 0],
        slots: 1,
    },
    BuiltInClass {
        name: "<unbound-variable>",
        above: &[30, 24, 19, 18, 0],
        slots: 1,
    },
    BuiltInClass {
        name: "<undefined-function>",
        above: &[30, 24, 19, 18, 0],
        slots: 1,
    },
    BuiltInClass {
        name: "<end-of-stream>",
        above: &[26, 19, 18, 0],
        slots: 0,
    },
];

// All of them.
fn built_in() -> &'static [BuiltInClass]
    ensures { AreBuiltIn result.now }
{
    BUILT_IN
}

/// The built-in class of that number; none exactly at 34 and above. Takes no memory.
pub fn built_in_class(number: usize) -> Option<&'static BuiltInClass>
    ensures { MatchOption result (34 ≤ number) (λ class. IsBuiltIn number class.now) }
{
    match built_in().get(number) {
        Some(class) => Some(class),
        None => None,
    }
}

/// The name of the built-in class of that number; none exactly at 34 and above. Takes no memory.
pub fn class_text(number: u32) -> Option<&'static str>
    ensures { MatchOption result (34 ≤ number) (λ text. slice_get class_texts number ≡ Some text.now) }
{
    match built_in_class(number as usize) {
        Some(class) => Some(class.name),
        None => None,
    }
}
