// The words that stand beside the code before the first form of a program, its literals among them.
#![tactic(auto)]

pub mod classes;
mod contents;
pub mod fixed;
pub mod functions;
pub mod further;
pub mod laws;
pub mod laying;
pub mod literals;
pub mod named_symbols;
pub mod names;
pub mod slots;
pub mod static_data;
pub mod symbol_words;
pub mod words;

pub use further::lay_further;
pub use laws::{law_static_data, law_whole_rows};
pub use laying::lay_datum;
pub use named_symbols::lay_symbols;
pub use static_data::{StaticData, StaticDataFault, lay_rows, lay_static_data};
pub use symbol_words::{SymbolWord, SymbolWords};
pub use words::ArenaWords;
