// Generic functions, their methods, and the tables that choose a call's methods.
#![tactic(auto)]

pub mod applying;
pub mod build;
pub mod cells;
pub mod chain;
pub mod dispatch_tables;
pub mod generics;
pub mod groups;
pub mod laws;
mod methods;
mod numbers;
mod order;
mod passing;
mod table;
pub mod tuples;

pub use applying::{applies, chain_length, is_below};
pub use build::tables;
pub use cells::{CELLS_LIMIT, generic_cells};
pub use chain::{Chain, ProcedureIds};
pub use dispatch_tables::Tables;
pub use generics::Generics;
pub use groups::{ArgumentGroups, GroupNumbers, argument_groups};
pub use tuples::{tuple_at, tuple_count};
