// The trivial allocation for the lines of a tree: each register in a slot of its own, and the records that stand at a line are those of the
// tree.
#![tactic(auto)]

pub mod laws;

pub use laws::{
    law_good_lines, law_known_records, law_known_stages, law_lent_return, law_no_lent,
    law_trivial_lines,
};
