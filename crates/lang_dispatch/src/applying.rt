// Which methods apply to a tuple of classes, and how many a chain has.

ghost use Rattle.std.specs.Prelude.{◌≡◌, if◌then◌else◌};
ghost use Rattle.lang_meaning.specs.Classes.{is_below, applies, is_qualifier, chain};
ghost use Rattle.lang_meaning.specs.Cells.{chain_length};
ghost use Rattle.lang_dispatch.specs.OfClasses.{with_classes};

use crate::groups::contains;
use lang_meaning::{ClassId, ClassIds, ClassRows, GenericRow, Qualifier};

/// Whether the class is that one or below it; takes no memory.
pub fn is_below(classes: &ClassRows, class: ClassId, above: ClassId) -> bool
    ensures { result ≡ is_below (with_classes classes.now) class above }
{
    match classes.get(class) {
        Some(row) => contains(&row.precedence, above),
        None => false,
    }
}

/// Whether a method of these classes applies to arguments of the classes of the tuple (ISO/IEC
/// 13816:2007, 15.3.4); takes no memory.
pub fn applies(classes: &ClassRows, tuple: &ClassIds, method: &ClassIds) -> bool
    ensures { result ≡ applies (with_classes classes.now) tuple.now method.now }
{
    if tuple.len() != method.len() {
        return false;
    }
    for at in 0..tuple.len() {
        let Some(class) = tuple.get(at) else {
            unreachable!()
        };
        let Some(above) = method.get(at) else {
            unreachable!()
        };
        if !is_below(classes, *class, *above) {
            return false;
        }
    }
    true
}

/// How many methods the chain of the tuple has, none where there is no chain; takes no memory.
pub fn chain_length(generic: &GenericRow, classes: &ClassRows, tuple: &ClassIds) -> usize
    ensures { result ≡ chain_length (chain (with_classes classes.now) generic.now tuple.now) }
{
    let mut found: usize = 0;
    let mut primary: usize = 0;
    for method in generic.methods.as_slice() {
        if applies(classes, tuple, &method.classes) {
            found += 1;
            primary += primary_count(method.qualifier);
        }
    }
    if primary == 0 { 0 } else { found }
}

/// One for a primary method.
pub(crate) fn primary_count(kind: Qualifier) -> usize
    ensures { result ≡ (if is_qualifier Qualifier.Primary kind then 1 else 0) }
{
    match kind {
        Qualifier::Primary => 1,
        Qualifier::Around | Qualifier::Before | Qualifier::After => 0,
    }
}
