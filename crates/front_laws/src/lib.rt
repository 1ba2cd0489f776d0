// Laws of the verdict on a file: where what refuses it stands, and that there is one verdict and one meaning, whatever
// names are numbered by.
#![tactic(auto)]

pub mod laws;
pub mod places;

pub use laws::{
    law_names_in_table, law_one_evaluation, law_one_meaning, law_one_program, law_one_verdict,
    law_one_verdict_of_table, law_renamed,
};
pub use places::{
    law_data_in_text, law_offence_in_form, law_refusal_in_text, law_refusal_of_prelude,
    law_refusals_in_text, law_refusals_of_table_in_text, law_stop_in_text,
};
