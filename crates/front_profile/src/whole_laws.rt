// Laws of what forms stand for: a form is whole where it stands, and so is a program of such forms.

ghost use Rattle.std.specs.Prelude.{◌≡◌, ℕ, ◌<◌, ◌≤◌, true, false, List, [], None, length};
ghost use Rattle.base.specs.declared.datum.Name.{Name};
ghost use Rattle.base.specs.Data.{Item};
ghost use Rattle.base.specs.WellFormedData.{WellFormed};
ghost use Rattle.lang_meaning.specs.declared.scope.LexicalScope.{LexicalScope};
ghost use Rattle.lang_meaning.specs.Form.{Form};
ghost use Rattle.lang_meaning.specs.Standing.{stands};
ghost use Rattle.lang_meaning.specs.ProgramCounts.{program_nodes};
ghost use Rattle.lang_meaning.specs.Cells.{program_cells};
ghost use Rattle.lang_meaning.specs.Facts.{is_whole};
ghost use Rattle.lang_classes.specs.InheritedBuiltIn.{AreBuiltIn};
ghost use Rattle.front_profile.specs.declared.tables.Tables.{Tables};
ghost use Rattle.front_profile.specs.declared.elaboration.ElaboratedPart.{ElaboratedPart};
ghost use Rattle.front_profile.specs.declared.elaboration.Made.{Made};
ghost use Rattle.front_profile.specs.Nodes.{StaticContext, Part, Written, Standing, stands as comes_to};
ghost use Rattle.front_profile.specs.FunctionNodes.{function_node};
ghost use Rattle.front_profile.specs.Rows.{node, plain_node};
ghost use Rattle.front_profile.specs.DefiningRows.{has_function};
ghost use Rattle.front_profile.specs.Elaborations.{generic_named};
ghost use Rattle.front_profile.specs.Expanders.{tables_before, definitions, program_of};
ghost use Rattle.front_profile.specs.Judged.{Elaborates};
ghost use Rattle.front_profile.specs.Walks.{PartTaken, Through};
ghost use Rattle.front_profile.specs.Suits.{Suits};
ghost use Rattle.front_profile.specs.Scopes.{ScopeWithin};
ghost use Rattle.front_profile.specs.Definitions.{defined, rows_of, SoundTables};
ghost use Rattle.front_profile.specs.Places.{EmptyContext, WellFormedContext};
ghost use Rattle.front_profile.specs.Right.{Came, with_main};
ghost use Rattle.front_profile.specs.Between.{TopLevelTables, HasNoForm};
ghost use Rattle.front_profile.specs.Below.{NothingDefined, OneProcedure};
ghost use Rattle.front_profile.specs.Known.{KnownTables, MakesSuited, SuitsNode};

use lang_classes::laws::law_definitions;
use lang_derived::laws::law_good_steps;
use lang_taken::laws::law_form;

/// A form that stands in a scope stands in each that binds as much.
pub fn law_scopes()
    ensures { (s t : LexicalScope) (f : Form) → ScopeWithin s t → stands s f ≡ true → stands t f ≡ true }
{}

/// A datum in form, at a good place beside sound tables, comes to a form that stands there, fits, is not too
/// deep, and binds numbers between those of the tables in front and behind; and the tables behind it have
/// grown, are sound, and are whole where those in front are.
pub fn law_forms()
    ensures { (names : List (List ℕ)) (a : StaticContext) (s : Tables) (d : Item) (m : Standing) → WellFormed (length names) d → WellFormedContext (defined s) a →
        SoundTables s → Elaborates names (node names a s d) (comes_to m) → Came a s m }
{
    law_good_steps();
    law_form();
    law_definitions();
}

/// Below top level nothing is defined: a form that stands there leaves classes, generic functions, functions, variables and
/// procedures as they are. And a function of a definition leaves one procedure more and all the others so.
pub fn law_below_top_level()
    ensures forms { (names : List (List ℕ)) (a : StaticContext) (s : Tables) (d : Item) (m : Standing) → a.spot.top ≡ false →
        Elaborates names (node names a s d) (comes_to m) → NothingDefined s m.tables }
    ensures functions { (names : List (List ℕ)) (a : StaticContext) (s : Tables) (w : Written) (m : Standing) →
        Elaborates names (function_node a s w) (comes_to m) → OneProcedure s m.tables }
{}

/// Sound tables are known. What a form makes of parts that all stand suits the tables behind them, where those in front
/// of the form are known: so it is of a datum, of one that is no derived form, and of a function of a definition; and so
/// it is where the parts were met one after another.
pub fn law_suits()
    ensures sound { (s : Tables) → SoundTables s → KnownTables s }
    ensures forms { (names : List (List ℕ)) (a : StaticContext) (s : Tables) (d : Item) → KnownTables s → SuitsNode (node names a s d) }
    ensures plain_forms { (names : List (List ℕ)) (a : StaticContext) (s : Tables) (d : Item) → KnownTables s → SuitsNode (plain_node names a s d) }
    ensures functions { (a : StaticContext) (s : Tables) (w : Written) → KnownTables s → SuitsNode (function_node a s w) }
    ensures walks { (names : List (List ℕ)) (o i : StaticContext) (s : Tables) (xs : List Part) (m : Made) (rs : List ElaboratedPart) (i2 : StaticContext) (t : Tables) →
        MakesSuited o i s xs m → Through names o i s xs rs i2 t [] → Suits m.making t }
{
    law_definitions();
}

/// Behind a form, wherever it stands, tables are known where those in front of it are; so they are behind a part, and
/// behind parts that were met one after another.
pub fn law_known()
    ensures forms { (names : List (List ℕ)) (a : StaticContext) (s : Tables) (d : Item) (m : Standing) → KnownTables s →
        Elaborates names (node names a s d) (comes_to m) → KnownTables m.tables }
    ensures plain_forms { (names : List (List ℕ)) (a : StaticContext) (s : Tables) (d : Item) (m : Standing) → KnownTables s →
        Elaborates names (plain_node names a s d) (comes_to m) → KnownTables m.tables }
    ensures functions { (names : List (List ℕ)) (a : StaticContext) (s : Tables) (w : Written) (m : Standing) → KnownTables s →
        Elaborates names (function_node a s w) (comes_to m) → KnownTables m.tables }
    ensures parts { (names : List (List ℕ)) (o i : StaticContext) (s : Tables) (x : Part) (rs : List ElaboratedPart) (i2 : StaticContext) (t : Tables) (rs2 : List ElaboratedPart) →
        KnownTables s → PartTaken names o i s x rs i2 t rs2 → KnownTables t }
    ensures walks { (names : List (List ℕ)) (o i : StaticContext) (s : Tables) (xs : List Part) (rs : List ElaboratedPart) (i2 : StaticContext) (t : Tables) →
        KnownTables s → Through names o i s xs rs i2 t [] → KnownTables t }
{
    law_definitions();
}

/// A name that no function has is that of no generic function.
pub fn law_generic_names()
    ensures { (t : Tables) (n : Name) → SoundTables t → has_function t n ≡ false → generic_named t.generics n ≡ None }
{}

/// The first tables are whole, with the built-in classes and no more sites than nodes; so they are behind
/// each top-level form, where that of a file is a main form then, and that of a prelude, in which forms
/// have no sites, is none.
pub fn law_top_forms()
    ensures first { (texts : List (List ℕ)) (t : Tables) → AreBuiltIn texts t.classes → HasNoForm t → TopLevelTables t }
    ensures file { (names : List (List ℕ)) (a : StaticContext) (s : Tables) (d : Item) (m : Standing) → WellFormed (length names) d → EmptyContext a →
        TopLevelTables s → Elaborates names (node names a s d) (comes_to m) → TopLevelTables (with_main m.form m.tables) }
    ensures prelude { (names : List (List ℕ)) (a : StaticContext) (s : Tables) (d : Item) (m : Standing) → WellFormed (length names) d → EmptyContext a →
        a.spot.sited ≡ false → TopLevelTables s → Elaborates names (node names a s d) (comes_to m) → TopLevelTables m.tables }
{
    law_good_steps();
    law_form();
    law_definitions();
}

/// Such tables are a whole program where its nodes, and the cells of its dispatch tables, are within their limits.
pub fn law_programs()
    ensures { (t : Tables) → TopLevelTables t → program_nodes (rows_of (defined t)) ≤ 100000 → program_cells (rows_of (defined t)) ≤ 262144 →
        is_whole (rows_of (defined t)) ≡ true }
{}

/// The program of a call of a macro is whole: where that is so of what was defined before the top-level form, and the
/// program has at most 100,000 nodes.
pub fn law_expanders()
    ensures { (s : Tables) (m : ℕ) (d : Item) (n : ℕ) → TopLevelTables (tables_before s) → program_nodes (rows_of (definitions s)) ≤ 100000 →
        program_cells (rows_of (definitions s)) ≤ 262144 → m < length (tables_before s).macros → WellFormed n d → program_nodes (program_of s m d) ≤ 100000 →
        is_whole (program_of s m d) ≡ true }
{}
