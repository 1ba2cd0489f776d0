// What the programs of tables share: their rows, what a row answers, and data as rows write them.
#![tactic(auto)]

mod answer;
mod escape;
mod read;
mod shown;
mod table;

pub use answer::RowAnswer;
pub use read::read_data;
pub use shown::{Style, show, show_symbol};
pub use table::{Table, put_table};
