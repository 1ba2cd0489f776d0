// Laws of the words before the first form, as the contracts of functions that do nothing.

ghost use Rattle.mid_start.specs.Law.{LawOfStaticData, LawOfWholeRows};

/// A state of middle code that begins with the words before the first form, with nothing printed and an input of bytes, represents the state of
/// the meaning before the first form.
pub fn law_static_data()
    ensures { LawOfStaticData }
{}

/// What `lay_static_data` asks of rows holds of each whole program whose names are in the table, where t has that name and nil has none.
pub fn law_whole_rows()
    ensures { LawOfWholeRows }
{}
