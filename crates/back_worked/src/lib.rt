// Of worked programs it is shown that their code does what they mean: they are lowered and run, by computation.
#![tactic(auto)]

pub mod programs;
