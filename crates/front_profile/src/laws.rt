// Laws of what forms stand for.

ghost use Rattle.std.specs.Prelude.{◌≡◌, ℕ, List, [], ◌∷◌, length};
ghost use Rattle.base.specs.declared.reason.Stop.{Stop};
ghost use Rattle.base.specs.Names.{IsTable, Extends};
ghost use Rattle.base.specs.Data.{Item};
ghost use Rattle.base.specs.WellFormedData.{WellFormed};
ghost use Rattle.front_profile.specs.declared.elaboration.ElaboratedPart.{ElaboratedPart};
ghost use Rattle.front_profile.specs.declared.elaboration.Made.{Made};
ghost use Rattle.front_profile.specs.declared.tables.Tables.{Tables};
ghost use Rattle.front_profile.specs.Nodes.{StaticContext, Part, Standing, Verdict, stands, NodeStays};
ghost use Rattle.front_profile.specs.Elaborations.{made_form, finished};
ghost use Rattle.front_profile.specs.Rows.{node, plain_node};
ghost use Rattle.front_profile.specs.Marks.{TablesGrow};
ghost use Rattle.front_profile.specs.Exact.{IsExact, OneExpansion};
ghost use Rattle.front_profile.specs.Judged.{Elaborates};
ghost use Rattle.front_profile.specs.Sound.{weight, SoundNode};
ghost use Rattle.front_profile.specs.Walks.{PartTaken, PartStops, Through, PartsStop, WholeComes, WholeStops};

use lang_derived::laws::law_one_step;

/// A form has at most one verdict where it stands: one core form with one numbering, or one first
/// offence. So it is where no macro applies; and where calls of macros have one expansion, of verdicts that are
/// not given for want of words or of instructions of an expander.
pub fn law_one_verdict()
    ensures without { (names : List (List ℕ)) (a : StaticContext) (s : Tables) (d : Item) (v w : Verdict) → IsTable names → s.before.macros ≡ 0 →
        Elaborates names (node names a s d) v → Elaborates names (node names a s d) w → v ≡ w }
    ensures exact { (names : List (List ℕ)) (a : StaticContext) (s : Tables) (d : Item) (v w : Verdict) → IsTable names → OneExpansion names →
        IsExact v → IsExact w → Elaborates names (node names a s d) v → Elaborates names (node names a s d) w → v ≡ w }
{
    law_one_step();
}

/// What a form that is no derived form is, with its parts, stays under every later table of names, unless it asks for a
/// name that the earlier table lacks.
pub fn law_names_apart()
    ensures { (old new : List (List ℕ)) (a : StaticContext) (s : Tables) (d : Item) → Extends old new → WellFormed (length old) d →
        NodeStays (plain_node old a s d) (plain_node new a s d) }
{}

/// Judging ends: each part of a form is in form with its names in the table, and stands deeper than the
/// form, of which at most 1,000 stand inside one another, or in the body of a definition at top level.
pub fn law_parts_are_sound()
    ensures { (names : List (List ℕ)) (n : ℕ) (a : StaticContext) (s : Tables) (d : Item) → WellFormed n d →
        SoundNode n (weight a.spot) (plain_node names a s d) }
{}

/// Parts are judged one after another, while names are added: with a part more in front, whatever the
/// parts behind come to is what all come to; a stop of one is the stop of all; a form is made of what
/// was found of all its parts, or stops with them.
pub fn law_turns()
    ensures turn { (names more : List (List ℕ)) (o i : StaticContext) (s : Tables) (xs : List Part) (rs : List ElaboratedPart) (i2 : StaticContext) (t : Tables) (y : Part) (ys : List Part)
        (i3 : StaticContext) (u : Tables) (rs2 : List ElaboratedPart) → Extends names more → Through names o i s xs rs i2 t (y ∷ ys) →
        PartTaken more o i2 t y rs i3 u rs2 → Through more o i s xs rs2 i3 u ys }
    ensures stop { (names more : List (List ℕ)) (o i : StaticContext) (s : Tables) (xs : List Part) (rs : List ElaboratedPart) (i2 : StaticContext) (t : Tables) (y : Part) (ys : List Part)
        (stop : Stop) → Extends names more → Through names o i s xs rs i2 t (y ∷ ys) → PartStops more o i2 t y stop → PartsStop more o i s xs stop }
    ensures whole { (names : List (List ℕ)) (o i : StaticContext) (s : Tables) (xs : List Part) (m : Made) (rs : List ElaboratedPart) (i2 : StaticContext) (t : Tables) →
        Through names o i s xs rs i2 t [] → WholeComes names o i s xs m (stands (record { form = made_form m rs; tables = finished m rs t })) }
    ensures whole_stop { (names : List (List ℕ)) (o i : StaticContext) (s : Tables) (xs : List Part) (m : Made) (stop : Stop) →
        PartsStop names o i s xs stop → WholeStops names o i s xs m stop }
{}

/// Judging takes nothing away: behind a form all that was defined in front of it is still there, in front of what the
/// form adds.
pub fn law_growth()
    ensures { (names : List (List ℕ)) (a : StaticContext) (s : Tables) (d : Item) (m : Standing) →
        Elaborates names (node names a s d) (stands m) → TablesGrow s m.tables }
{}
