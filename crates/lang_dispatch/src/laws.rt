// Laws of the methods that apply to a call, for all programs.

ghost use Rattle.std.specs.Prelude.{◌≡◌, ◌≢◌, ◌<◌, ◌≤◌, ℕ, true, false, List, Some, filter, length, slice_get, take};
ghost use Rattle.std.specs.List.{sum_by};
ghost use Rattle.lang_meaning.specs.declared.program.ProgramRows.{ProgramRows};
ghost use Rattle.lang_meaning.specs.declared.program.GenericRow.{GenericRow};
ghost use Rattle.lang_meaning.specs.declared.program.MethodRow.{MethodRow};
ghost use Rattle.lang_meaning.specs.Classes.{applies, applicable, more_specific};
ghost use Rattle.lang_dispatch.specs.Methods.{row_is_whole, methods_at, with_method, with_first_methods};

/// The methods that a call finds are the ones that apply, in the order of their specificity (ISO/IEC
/// 13816:2007, 15.3.4). They are the same methods, each as often: whatever is added up over them has
/// the same sum. Of two of one qualifier the one that stands earlier is more specific, and of two
/// methods at most one is more specific than the other.
pub fn law_order()
    ensures same { (program : ProgramRows) (g : GenericRow) (cs : List ℕ) (count : MethodRow → ℕ) →
        sum_by count (applicable program cs g.methods)
        ≡ sum_by count (filter (λ m. applies program cs m.classes) g.methods) }
    ensures order { (program : ProgramRows) (g : GenericRow) (cs : List ℕ) (i j : ℕ) (m n : MethodRow) →
        row_is_whole g ≡ true → i < j →
        slice_get (applicable program cs g.methods) i ≡ Some m →
        slice_get (applicable program cs g.methods) j ≡ Some n →
        m.qualifier ≡ n.qualifier → more_specific program cs m.classes n.classes ≡ true }
    ensures one_way { (program : ProgramRows) (cs ms ns : List ℕ) →
        more_specific program cs ms ns ≡ true → more_specific program cs ns ms ≡ false }
{}

/// What was added goes by cuts. A method that was added behind the ones that stay is gone, and a generic function that
/// keeps all its methods is as it was. A cut of one generic function's methods leaves the methods that another was
/// given, and a cut of the generic functions takes with it the methods that those behind were given.
pub fn law_cuts()
    ensures added { (rows : List GenericRow) (i n : ℕ) (m : MethodRow) → n ≤ length (methods_at rows i) →
        with_first_methods (with_method rows i m) i n ≡ with_first_methods rows i n }
    ensures all { (rows : List GenericRow) (i : ℕ) → with_first_methods rows i (length (methods_at rows i)) ≡ rows }
    ensures apart { (rows : List GenericRow) (i j n : ℕ) (m : MethodRow) → i ≢ j →
        with_first_methods (with_method rows j m) i n ≡ with_method (with_first_methods rows i n) j m }
    ensures behind { (rows : List GenericRow) (i len : ℕ) (m : MethodRow) → len ≤ i →
        take len (with_method rows i m) ≡ take len rows }
{}
