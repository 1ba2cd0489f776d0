// The words of a lowered program, laid: the low words, those of chains of methods, of arities and of generic functions, and all that
// stand behind the objects.
#![tactic(auto)]

pub mod arities;
pub mod chains;
pub mod faults;
pub mod further;
mod generic_chains;
pub mod generics;
mod groups;
pub mod low;
mod maps;
pub mod naming;

pub use arities::{arities_fit, push_arities};
pub use chains::{chain_fits, push_chain};
pub use faults::LayingFault;
pub use further::further_words;
pub use generics::{push_generic, push_generics};
pub use low::low_words;
pub use naming::{NameNumbers, addresses, first_names};
