// The code of the plain evaluator's machine.
#![tactic(auto)]

mod body_nodes;
pub mod building;
pub mod captured;
pub mod computing;
pub mod exiting;
pub mod frame;
pub mod given;
pub mod links;
pub mod lookups;
pub mod machine;
pub mod method_places;
pub mod nodes;
pub mod operands;
pub mod places;
pub mod requests;
pub mod signals;
pub mod situation;
pub mod sizes;
pub mod slot;
pub mod slots;
pub mod stack;
pub mod variables;
pub mod word_tests;
