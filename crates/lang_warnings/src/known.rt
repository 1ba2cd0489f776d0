// What forms are judged by.

use base::{NameMap, Names};
use lang_meaning::ProgramRows;
use lang_rows::named::RowList;

/// Names that are kept, by their numbers.
pub(crate) type KeptNames = NameMap<usize, ()>;

/// A program with its names, its functions by the numbers of their names, and the global variables that it defines.
#[derive(Clone, Copy)]
pub(crate) struct Known<'p> {
    pub(crate) names: &'p Names,
    pub(crate) program: &'p ProgramRows,
    pub(crate) rows: &'p RowList,
    pub(crate) globals: &'p KeptNames,
}
