// What the code of a program's forms is made from, and tables made of it once.

ghost use Rattle.std.specs.Prelude.{◌≡◌, false, slice_index_or, None};
ghost use Rattle.lang_meaning.specs.Literals.{function_row};
ghost use Rattle.lang_meaning.specs.Lookup.{text};
ghost use Rattle.back_calls.specs.Tabled.{IsTabled};

use back_lowering::Placement;
use base::{ItemList, Name, Names};
use flat_language::FlatProgram;
use lang_meaning::FunctionRow;

/// Flags, by numbers.
pub type FlagList = ItemList<bool>;

/// Rows of functions, by names.
pub type RowList = ItemList<Option<FunctionRow>>;

/// What is looked up again and again.
#[derive(Drop)]
pub struct Tables {
    /// Whether each procedure is a method.
    pub methods: FlagList,
    /// Whether the body of each procedure looks at the site.
    pub asking: FlagList,
    /// The function of each name.
    pub rows: RowList,
    /// The function of a name that is not there.
    pub unnamed: Option<FunctionRow>,
}

/// What the code of a program's forms is made from.
#[derive(Clone, Copy)]
pub struct Given<'p> {
    pub names: &'p Names,
    pub at: &'p Placement,
    pub program: &'p FlatProgram,
    pub tables: &'p Tables,
}

/// The flag of a number; false where it has none.
pub fn flag(list: &FlagList, number: usize) -> bool
    ensures { result ≡ slice_index_or list.now number false }
{
    match list.get(number) {
        Some(flag) => *flag,
        None => false,
    }
}

/// The function of a name.
pub fn row_of(given: &Given, name: Name) -> Option<FunctionRow>
    requires { IsTabled given.now }
    ensures { result ≡ function_row given.now.names.now given.now.program.now.functions (text given.now.names.now name.0) }
{
    match given.tables.rows.get(name.0) {
        Some(row) => *row,
        None => given.tables.unnamed,
    }
}
