// Places, reasons, lists, data and the outside: what every crate above speaks of.
#![tactic(auto)]

pub mod calls;
pub mod datum;
pub mod faults;
mod fixed_buffer;
mod fronts;
pub mod limits;
pub mod lists;
pub mod memory_shelf;
pub mod memory_sink;
pub mod memory_source;
pub mod name_map;
pub mod names;
pub mod origin;
pub mod outside;
pub mod place;
pub mod reason;
pub mod sure;
pub mod words;
mod writing;

pub use calls::Calls;
pub use datum::naming::{symbol_text, text_of};
pub use datum::{Datum, DatumList, FreshList, Kind, Name, NameList, Symbol};
pub use faults::{Failed, NoMemory};
pub use limits::LONGEST_TEXT;
pub use lists::{Bytes, CallList, ItemList, PlaceList, WordList};
pub use memory_shelf::MemShelf;
pub use memory_sink::MemSink;
pub use memory_source::MemSource;
pub use name_map::NameMap;
pub use names::Names;
pub use origin::Origin;
pub use outside::{Shelf, Sink, Source};
pub use place::Place;
pub use reason::{Reason, Refusal, Stop};
pub use sure::{SureShelf, SureSink, SureSource};
pub use words::Words;
pub use writing::write_all;
