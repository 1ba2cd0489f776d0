// Laws of precedence lists and slots, for all hierarchies of classes.

ghost use Rattle.std.specs.Prelude.{◌≡◌, ◌<◌, ◌≤◌, ◌==◌, ℕ, Bool, true, List, length, take};
ghost use Rattle.lang_meaning.specs.Lookup.{all_differ, is_in};
ghost use Rattle.lang_classes.specs.InheritedClasses.{Hierarchy, IsHierarchy, GivenSlot, with_class};
ghost use Rattle.base.specs.declared.datum.Name.{Name};
ghost use Rattle.lang_classes.specs.InheritedSlots.{has_name, same_name};
ghost use Rattle.lang_classes.specs.Lines.{line, slots_named};
ghost use Rattle.lang_classes.specs.Keeping.{KeepsHierarchies, KeepsNames};

/// Precedence lists are an order of the classes (ISO/IEC 13816:2007, 15). A class stands in its own
/// list, and no class stands in a list twice. What stands in the list of a class that a list has
/// stands in that list too. And of two classes at most one stands below the other.
pub fn law_precedence()
    ensures itself { (h : Hierarchy) (c : ℕ) → IsHierarchy h → c < length h.rows → is_in c (line h c) ≡ true }
    ensures once { (h : Hierarchy) (c : ℕ) → IsHierarchy h → all_differ (λ d e. d == e) (line h c) ≡ true }
    ensures through { (h : Hierarchy) (c d e : ℕ) → IsHierarchy h →
        is_in d (line h c) ≡ true → is_in e (line h d) ≡ true → is_in e (line h c) ≡ true }
    ensures one_way { (h : Hierarchy) (c d : ℕ) → IsHierarchy h →
        is_in d (line h c) ≡ true → is_in c (line h d) ≡ true → c ≡ d }
{}

/// Slots are inherited (ISO/IEC 13816:2007, 15): a class has each slot of the classes above it, and no
/// slot twice.
pub fn law_slots()
    ensures once { (h : Hierarchy) (c : ℕ) → IsHierarchy h → all_differ same_name (slots_named h c) ≡ true }
    ensures inherited { (h : Hierarchy) (c d : ℕ) (n : Name) → IsHierarchy h → is_in d (line h c) ≡ true →
        has_name n (slots_named h d) ≡ true → has_name n (slots_named h c) ≡ true }
{}

/// A class that was added behind the ones that stay is gone after a cut.
pub fn law_cut()
    ensures rows { (h : Hierarchy) (n : Name) (supers : List ℕ) (slots : List GivenSlot) (a : Bool) (len : ℕ) →
        len ≤ length h.rows → take len (with_class h n supers slots a).rows ≡ take len h.rows }
    ensures own { (h : Hierarchy) (n : Name) (supers : List ℕ) (slots : List GivenSlot) (a : Bool) (len : ℕ) →
        len ≤ length h.own → take len (with_class h n supers slots a).own ≡ take len h.own }
{}

/// A class of a new name below classes that are there and go together leaves a hierarchy, where its slots are few; and
/// a name more stands at the end of names that are kept at their first places.
pub fn law_definitions()
    ensures hierarchies { KeepsHierarchies }
    ensures names { KeepsNames }
{}
