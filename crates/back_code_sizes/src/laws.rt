// The laws of the sizes of code, as the contracts of functions that do nothing.

ghost use Rattle.back_code_sizes.specs.Laws.{LawOfCodeSizes, LawOfFormSizes};

/// The code of a form costs no more than its words, by the table of what each form has besides its parts.
pub fn law_form_sizes()
    ensures { LawOfFormSizes }
{}

/// The code of a lowered program costs at most so many words for each of its nodes, its parameters, its functions and
/// its main forms, and so many besides.
pub fn law_code_sizes()
    ensures { LawOfCodeSizes }
{}
