// What holds of all runs of flat programs, whatever the program: the laws, and the lemmas that carry them, for use above.
#![tactic(auto)]

pub mod laws;
