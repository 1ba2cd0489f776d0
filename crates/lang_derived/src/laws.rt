// Laws of the table of derived forms, for all forms.

ghost use Rattle.std.specs.Prelude.{◌≡◌, ℕ, ◌+◌, ◌<◌, ◌↔◌, List, length, false};
ghost use Rattle.base.specs.declared.place.Place.{Place};
ghost use Rattle.base.specs.declared.datum.Symbol.{Symbol};
ghost use Rattle.base.specs.declared.reason.Stop.{Stop};
ghost use Rattle.lang_derived.specs.declared.one_step.Step.{Step};
ghost use Rattle.base.specs.Data.{Item};
ghost use Rattle.base.specs.DataMeasures.{NamesBelow, size_of};
ghost use Rattle.base.specs.Names.{IsTable, Extends};
ghost use Rattle.base.specs.DataParts.{AllParts};
ghost use Rattle.lang_derived.specs.Table.{is_derived};
ghost use Rattle.lang_derived.specs.Derived.{Derives, plain, becomes, derivation};
ghost use Rattle.lang_derived.specs.WellFormedSteps.{StepsAreWellFormed};
ghost use Rattle.lang_derived.specs.Ends.{AllFurther, LeavesForm, piece_weight};
ghost use Rattle.lang_derived.specs.Pieces.{Builds, Piece, word, parens, Pieces, piece_and, Right};
ghost use Rattle.lang_derived.specs.Ranks.{rank};
ghost use Rattle.lang_derived.specs.Steps.{IsStep, IsStop};
ghost use Rattle.lang_derived.specs.FormPlaces.{a_form, StandsAs};

/// A datum fits at most one row, and the step is one datum with one number of new symbols.
pub fn law_one_step()
    ensures { (names : List (List ℕ)) (d : Item) (s : ℕ) (d2 e2 : Item) (s2 t2 : ℕ) → IsTable names →
        Derives names d s d2 s2 → Derives names d s e2 t2 → (d2 ≡ e2) × (s2 ≡ t2) }
{}

/// What the table says of a datum stays under every later table of names.
pub fn law_names_apart()
    ensures { (old new : List (List ℕ)) (s : ℕ) (d : Item) → Extends old new → NamesBelow (length old) d →
        derivation old s d ≡ derivation new s d }
{}

/// A step that was taken stays one under every later table of names.
pub fn law_step_stays()
    ensures { (old new : List (List ℕ)) (d : Item) (s : ℕ) (d2 : Item) (s2 : ℕ) → Extends old new →
        NamesBelow (length old) d → Derives old d s d2 s2 → Derives new d s d2 s2 }
{}

/// What a datum in form, with all its names in the table, becomes is in form and has all its names there.
pub fn law_good_steps()
    ensures { StepsAreWellFormed }
{}

/// Steps end: there is no endless sequence of data in which each is left to be derived by a step of
/// the one before it, or is a part of the one before it. What falls is the size: each part of a form
/// that a step takes over, and each list that it writes under a derived name, is smaller than the
/// form; what is built of a part has the size that is counted for it; and a part of a datum is
/// smaller than the datum. Nothing else is left to be derived: what stands as a form in a right side
/// is a symbol, nil, a part of the form, or a list with a written name in front, in which the forms
/// stand where the shape of that name has them; and what is built under a name that is no derived
/// one is no derived form.
pub fn law_steps_end()
    ensures ends { (f : ℕ → Item) → ((i : ℕ) → LeavesForm (f i) (f (i + 1))) → ⊥ }
    ensures falls { (names : List (List ℕ)) (s : ℕ) (d : Item) (r : Right) → derivation names s d ≡ becomes r →
        AllFurther (λ x. piece_weight x < size_of d) r.piece }
    ensures built { (names : List (List ℕ)) (p : Place) (x : Piece) (d : Item) → Builds names p x d →
        size_of d ≡ piece_weight x }
    ensures parts { (d : Item) → AllParts (λ e. size_of e < size_of d) d }
    ensures placed { (names : List (List ℕ)) (s : ℕ) (d : Item) (r : Right) → derivation names s d ≡ becomes r →
        StandsAs a_form r.piece }
    ensures others { (names : List (List ℕ)) (s : ℕ) (p : Place) (text : List ℕ) (xs : Pieces) (d : Item) →
        is_derived text ≡ false → Builds names p (parens (piece_and (word text) xs)) d → derivation names s d ≡ plain }
{}

/// One step as `derive` takes it: the step and the stop stay under every later table of names, and a
/// datum has one step.
pub fn law_steps_stay()
    ensures step { (old new : List (List ℕ)) (d : Item) (fresh : List Symbol) (step : Step) (after : List Symbol) → Extends old new →
        NamesBelow (length old) d → IsStep old d fresh step after → IsStep new d fresh step after }
    ensures stop { (old new : List (List ℕ)) (d : Item) (s : ℕ) (stop : Stop) → Extends old new →
        NamesBelow (length old) d → IsStop old d s stop → IsStop new d s stop }
    ensures one { (names : List (List ℕ)) (d : Item) (fresh : List Symbol) (x y : Step) (after after2 : List Symbol) → IsTable names →
        IsStep names d fresh x after → IsStep names d fresh y after2 → (x ≡ y) × (after ≡ after2) }
{}

/// The rank is nothing exactly where a datum is no derived form; it falls at each step, and stays
/// under every later table of names.
pub fn law_ranks()
    ensures none { (names : List (List ℕ)) (s : ℕ) (d : Item) → (derivation names s d ≡ plain) ↔ (rank names d ≡ 0) }
    ensures falls { (names : List (List ℕ)) (d : Item) (s : ℕ) (d2 : Item) (s2 : ℕ) → Derives names d s d2 s2 → rank names d2 < rank names d }
    ensures stays { (old new : List (List ℕ)) (d : Item) → Extends old new → NamesBelow (length old) d → rank old d ≡ rank new d }
{}
