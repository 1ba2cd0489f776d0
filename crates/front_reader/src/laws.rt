// Laws of the grammar, for all texts.

ghost use Rattle.std.specs.Prelude.{◌≡◌, ℕ, ◌<◌, List, [], length};
ghost use Rattle.base.specs.declared.place.Place.{Place as place};
ghost use Rattle.base.specs.declared.reason.Reason.{Reason as reason};
ghost use Rattle.base.specs.Data.{Item};
ghost use Rattle.base.specs.WellFormedData.{WellFormed};
ghost use Rattle.front_reader.specs.Characters.{place_behind};
ghost use Rattle.front_reader.specs.Gaps.{Gap};
ghost use Rattle.front_reader.specs.Reads.{ReadsNext, Text};
ghost use Rattle.front_reader.specs.Stops.{Stops, StopsFirst};

/// A text has at most one reading.
pub fn law_one_reading()
    ensures { (names : List (List ℕ)) (text : List ℕ) (p : place) (ds es : List Item) →
        Text names text p ds → Text names text p es → ds ≡ es }
{}

/// A text stops in at most one way.
pub fn law_one_stop()
    ensures { (p : place) (text : List ℕ) (a b : place) (q r : reason) →
        Stops p text a q → Stops p text b r → (a ≡ b) × (q ≡ r) }
{}

/// A text that reads does not stop.
pub fn law_reads_or_stops()
    ensures { (names : List (List ℕ)) (text : List ℕ) (p : place) (ds : List Item) (at : place) (r : reason) →
        Text names text p ds → Stops p text at r → ⊥ }
{}

/// A text that stops before its first datum is whole has no first datum.
pub fn law_next_or_stops()
    ensures { (names : List (List ℕ)) (text : List ℕ) (p : place) (d : Item) (after : List ℕ) (at : place) (r : reason) →
        ReadsNext names text p d after → StopsFirst p text at r → ⊥ }
{}

/// What comes next in a text is one datum at most, with one rest of the text behind it.
pub fn law_one_datum()
    ensures { (names : List (List ℕ)) (text : List ℕ) (p : place) (d e : Item) (after left : List ℕ)
        (x : ReadsNext names text p d after) (y : ReadsNext names text p e left) →
        (d ≡ e) × (after ≡ left) × (place_behind (place_behind p x.gap) x.bytes ≡ place_behind (place_behind p y.gap) y.bytes) }
{}

/// Where only a gap is left of a text, no datum comes, and no stop.
pub fn law_end()
    ensures datum { (names : List (List ℕ)) (text : List ℕ) (p : place) (d : Item) (after : List ℕ) →
        Gap text [] → ReadsNext names text p d after → ⊥ }
    ensures stop { (text : List ℕ) (p : place) (at : place) (r : reason) →
        Gap text [] → StopsFirst p text at r → ⊥ }
{}

/// A datum of a text is in form, with its names in the table, and takes bytes of the text.
pub fn law_good_data()
    ensures good { (names : List (List ℕ)) (text : List ℕ) (p : place) (d : Item) (after : List ℕ) →
        ReadsNext names text p d after → WellFormed (length names) d }
    ensures shorter { (names : List (List ℕ)) (text : List ℕ) (p : place) (d : Item) (after : List ℕ) →
        ReadsNext names text p d after → length after < length text }
{}
