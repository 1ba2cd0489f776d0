// What the search is made in: a program with its names, and the function of each name.

use base::Names;
use lang_meaning::ProgramRows;
use lang_rows::named::RowList;

/// A program with its names, and its functions by the numbers of their names.
#[derive(Clone, Copy)]
pub struct Given<'p> {
    pub names: &'p Names,
    pub program: &'p ProgramRows,
    pub rows: &'p RowList,
}
