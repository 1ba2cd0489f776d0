// What is to be shown of main forms and of whole programs, as definitions.
#![tactic(auto)]
