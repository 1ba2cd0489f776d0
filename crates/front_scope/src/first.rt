// The tables in front of all forms.

ghost use Rattle.std.specs.Prelude.{◌≡◌, ◌≤◌, Some, length, slice_get, IfOk};
ghost use Rattle.base.specs.Names.{Extends};
ghost use Rattle.front_scope.specs.Scopes.{AreWords, first_mark, first_tables};

use base::{FreshList, ItemList, Name, NameList, Names, NoMemory, PlaceList};
use front_profile::{Lengths, Mark, ReservedWords, Tables};
use lang_classes::Classes;
use lang_dispatch::Generics;
use lang_meaning::{CoreList, FunctionRows, LiteralRows, ProcedureList};
use std::alloc::Global;

// The name of a text.
fn word(names: &mut Names, text: &[u8]) -> Result<Name, NoMemory>
    requires { length text.now ≤ 263 }
    ensures name { IfOk result (λ name. slice_get names.new name.0 ≡ Some text.now) }
    ensures names { Extends names.old names.new }
{
    names.intern(text)
}

/// The words that no variable has.
pub(crate) fn reserved_words(names: &mut Names) -> Result<ReservedWords, NoMemory>
    ensures words { IfOk result (AreWords names.new) }
    ensures names { Extends names.old names.new }
{
    let truth = word(names, b"t")?;
    let rest = word(names, b":rest")?;
    let and_rest = word(names, b"&rest")?;
    Ok(ReservedWords {
        truth,
        rest,
        and_rest,
    })
}

// Where tables with these classes, and nothing else, stand.
fn first_mark(alloc: Global, classes: &Classes) -> Mark
    ensures { result ≡ first_mark classes.now }
{
    Mark {
        literals: 0,
        procedures: 0,
        functions: 0,
        macros: 0,
        prelude: 0,
        classes: classes.rows().len(),
        prelude_classes: classes.rows().len(),
        methods: Lengths::new(alloc),
        globals: 0,
        set: 0,
        dynamics: 0,
        sites: 0,
        fresh: 0,
        main: 0,
        variables: 0,
        exits: 0,
        expansions: 0,
    }
}

/// Tables with these words and classes, and nothing else.
pub(crate) fn first_tables(alloc: Global, words: ReservedWords, classes: Classes) -> Tables
    ensures { result ≡ first_tables words classes }
{
    let before = first_mark(alloc, &classes);
    Tables {
        words,
        literals: LiteralRows::new(alloc),
        procedures: ProcedureList::new(alloc),
        functions: FunctionRows::new(alloc),
        macros: ItemList::new(alloc),
        prelude: NameList::new(alloc),
        prelude_classes: classes.rows().len(),
        classes,
        generics: Generics::new(alloc),
        globals: ItemList::new(alloc),
        set: NameList::new(alloc),
        dynamics: ItemList::new(alloc),
        sites: PlaceList::new(alloc),
        fresh: FreshList::new(alloc),
        variables: 0,
        exits: 0,
        main: CoreList::new(alloc),
        expansions: 0,
        before,
    }
}
