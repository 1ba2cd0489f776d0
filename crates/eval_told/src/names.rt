// The texts of names, and the names of classes.

ghost use Rattle.std.specs.Prelude.{◌≡◌, slice_get};
ghost use Rattle.lang_meaning.specs.Lookup.{text};
ghost use Rattle.lang_meaning.specs.Primitives.{class_name};

use base::{Name, Names};
use lang_meaning::{ClassId, ClassRows};

/// The text of a name; empty where it has none.
pub fn text_of(names: &Names, name: Name) -> &[u8]
    ensures { result.now ≡ text names.now name.0 }
{
    match names.text(name) {
        Some(text) => text,
        None => &[],
    }
}

/// The name of a class; empty where there is no such class.
pub fn class_name<'n>(names: &'n Names, classes: &ClassRows, class: ClassId) -> &'n [u8]
    ensures { result.now ≡ class_name names.now (slice_get classes.now class) }
{
    match classes.get(class) {
        Some(row) => text_of(names, row.name),
        None => &[],
    }
}
