// What functions of the library give for all proper lists, as the contracts of functions that do nothing.

ghost use Rattle.lang_library_laws.specs.Laws.{LawOfAlike, LawOfAllPrinted, LawOfAppend, LawOfAssoc, LawOfDigits, LawOfEltOfList, LawOfEltOfString, LawOfEltOfVector, LawOfEnough, LawOfEqual, LawOfLength, LawOfList, LawOfMapcar, LawOfMember, LawOfNreverse, LawOfReverse, LawOfStringAppend, LawOfStringEqual, LawOfSubseq};
ghost use Rattle.lang_library_laws.specs.Worked.{IsMet, Works};

/// What a law says that an application gives or prints, it gives or prints where words are unlimited and levels are enough.
pub fn law_enough()
    ensures of_value { LawOfEnough }
    ensures of_text { LawOfAllPrinted }
{}

/// The law of `list`: it gives a new list of its arguments.
pub fn law_list()
    ensures { LawOfList }
{}

/// The law of `reverse`: of a proper list it gives a new list of the items in the other order.
pub fn law_reverse()
    ensures { LawOfReverse }
{}

/// The law of `length`: of a proper list it gives the number of items.
pub fn law_length()
    ensures { LawOfLength }
{}

/// The law of `member`: it gives what of a proper list begins with an object, which is the list behind some of its conses.
pub fn law_member()
    ensures { LawOfMember }
{}

/// The law of `assoc`: of a proper list of conses it gives the first one with a key, and nil where none has it.
pub fn law_assoc()
    ensures { LawOfAssoc }
{}

/// A program that is written out has what the laws ask for, and its functions, computed, give what the laws say.
pub fn worked_functions()
    ensures is_met { IsMet }
    ensures works { Works }
{}

/// The law of `append`: of proper lists it gives a list of the items of all of them, one after another.
pub fn law_append()
    ensures { LawOfAppend }
{}

/// The law of the digits of an integer: they are printed, behind a minus sign where it is below 0.
pub fn law_digits()
    ensures { LawOfDigits }
{}

/// The law of `string=`: it says whether two strings have the same characters.
pub fn law_string_equal()
    ensures { LawOfStringEqual }
{}

/// Structures that are alike are equal.
pub fn law_alike()
    ensures { LawOfAlike }
{}

/// The law of `equal`: it says whether two finite data are equal.
pub fn law_equal()
    ensures { LawOfEqual }
{}

/// The law of `nreverse`: of a proper list it gives a list of the same conses in the other order, and changes nothing else.
pub fn law_nreverse()
    ensures { LawOfNreverse }
{}

/// The law of `elt`: it gives the item of a proper list, the character of a string and the element of a vector that stands behind so many others.
pub fn law_elt()
    ensures of_list { LawOfEltOfList }
    ensures of_string { LawOfEltOfString }
    ensures of_vector { LawOfEltOfVector }
{}

/// The law of `mapcar` of one list: of a proper list it gives a new list of the values that the function has for the items.
pub fn law_mapcar()
    ensures { LawOfMapcar }
{}

/// The law of `subseq`: of a proper list it gives a new list of the items from a start up to an end.
pub fn law_subseq()
    ensures { LawOfSubseq }
{}

/// The law of `string-append`: it gives a new string of the characters of all strings, one after another.
pub fn law_string_append()
    ensures { LawOfStringAppend }
{}
