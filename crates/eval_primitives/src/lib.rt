// The primitives of the language, over the store.
#![tactic(auto)]

pub mod answer;
mod classes;
mod compute;
mod elements;
mod expected;
pub mod group;
mod kinds;
mod making;
mod numbers;
mod objects;
mod parts;
pub mod primitives;
mod programs;
mod searches;
mod searching;
mod setting;
mod words;

pub use answer::Answer;
pub use classes::class_of;
pub use group::{Group, Stream, group_of};
pub use primitives::Primitives;
