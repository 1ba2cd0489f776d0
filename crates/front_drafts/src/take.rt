// What the tables take of a draft: literals, sites, exits, and names that are set.

ghost use Rattle.std.specs.Prelude.{◌≡◌, ◌+◌, ◌<◌, ◌++◌, false, length, IfOk, OnOk};
ghost use Rattle.base.specs.Data.{item, symbol};
ghost use Rattle.front_drafts.specs.Drafts.{drawn, noting};
ghost use Rattle.front_drafts.specs.Drafts.{is_unnamed};
ghost use Rattle.front_drafts.specs.Views.{at, shown, view_parts, IsPlan};
ghost use Rattle.front_profile.specs.RowWords as word;
ghost use Rattle.front_profile.specs.DefiningRows as row;
ghost use Rattle.front_profile.specs.Nodes.{whole};
ghost use Rattle.front_profile.specs.Marks.{TablesGrow};

use crate::draft::{Defined, DefinedClass, DefinedMethods, Draft, Note, Sketch};
use crate::here::{Here, fits_depth};
use crate::plan::{Inner, Parts, Plan, Work};
use base::{Datum, Kind, Name, NoMemory, Place, Reason, Symbol};
use front_profile::{BoundList, Elaboration, Leaf, Made, Spot, Tables};
use lang_meaning::{LiteralRow, SiteId};

// The next site, where forms have sites; its place is kept.
fn take_site(here: Here, tables: &mut Tables) -> Result<Option<SiteId>, NoMemory>
    ensures site { IfOk result (λ site. site ≡ word.next_site (at here.entry.bound.now here.entry.spot) tables.old) }
    ensures ok { OnOk result (tables.new ≡ word.with_site (at here.entry.bound.now here.entry.spot) here.entry.place tables.old) }
    ensures grows { TablesGrow tables.old tables.new }
{
    if !here.spot.sited {
        return Ok(None);
    }
    tables.sites.push(here.place)?;
    Ok(Some(tables.sites.len()))
}

// What a form makes known before its parts are judged.
fn take_note(tables: &mut Tables, note: Note) -> Result<(), NoMemory>
    ensures ok { OnOk result (tables.new ≡ noting note tables.old) }
    ensures grows { TablesGrow tables.old tables.new }
{
    match note {
        Note::Nothing => Ok(()),
        Note::Set(name) => {
            tables.set.push(name)?;
            Ok(())
        }
        Note::Exit => {
            tables.exits = tables.exits.checked_add(1).ok_or(NoMemory)?;
            Ok(())
        }
    }
}

// A note, and then the site.
#[tactic(auto, using(front_profile::specs::bridge::Growing::tables_grow_transitive))]
fn take_note_and_site(
    here: Here,
    tables: &mut Tables,
    note: Note,
) -> Result<Option<SiteId>, NoMemory>
    ensures site { IfOk result (λ site. site ≡ word.next_site (at here.entry.bound.now here.entry.spot) (noting note tables.old)) }
    ensures ok { OnOk result (tables.new ≡ word.with_site (at here.entry.bound.now here.entry.spot) here.entry.place (noting note tables.old)) }
    ensures grows { TablesGrow tables.old tables.new }
{
    take_note(tables, note)?;
    take_site(here, tables)
}

// A core form at its site.
fn take_sketch<'a>(
    here: Here,
    tables: &mut Tables,
    sketch: Sketch<'a>,
) -> Result<Plan<'a>, NoMemory>
    ensures { IsPlan here.entry.bound.now tables.old tables.new
        (drawn (at here.entry.bound.now here.entry.spot) here.entry.place tables.old (Draft.Sited sketch.entry)) result }
{
    let Ok(site) = take_note_and_site(here, tables, sketch.note) else {
        drop(sketch);
        return Err(NoMemory);
    };
    Ok(Plan::Whole(Work {
        outside: sketch.outside,
        inside: sketch.inside,
        binds: sketch.binds,
        parts: sketch.parts,
        inner: sketch.inner,
        made: Made {
            site,
            making: sketch.making,
        },
    }))
}

// A core form that has no parts, without a site.
#[tactic(auto, using(crate::proofs::Lists::nothing_bound))]
fn unsited<'a>(here: Here, tables: &Tables, leaf: Leaf) -> Plan<'a>
    ensures { shown here.entry.bound.now tables.now result
        ≡ word.unsited (at here.entry.bound.now here.entry.spot) here.entry.place tables.now leaf }
{
    if !fits_depth(here.spot, 1) {
        return Plan::Offends(here.place, Reason::DepthLimit);
    }
    Plan::Whole(Work {
        outside: here.spot,
        inside: here.spot,
        binds: BoundList::new(here.alloc),
        parts: Parts::new(here.alloc),
        inner: Inner::new(here.alloc),
        made: Made {
            site: None,
            making: Elaboration::Ready(leaf),
        },
    })
}

// A literal behind the others.
fn push_literal(tables: &mut Tables, row: LiteralRow) -> Result<Leaf, NoMemory>
    ensures leaf { IfOk result (λ leaf. leaf ≡ Leaf.Literal (length tables.old.literals)) }
    ensures ok { OnOk result (tables.new ≡ word.with_literal row tables.old) }
    ensures grows { TablesGrow tables.old tables.new }
{
    let id = tables.literals.len();
    tables.literals.push(row)?;
    Ok(Leaf::Literal(id))
}

// A literal, whose row is kept.
fn take_literal<'a>(here: Here, tables: &mut Tables, row: LiteralRow) -> Result<Plan<'a>, NoMemory>
    ensures { IsPlan here.entry.bound.now tables.old tables.new
        (word.literal_node (at here.entry.bound.now here.entry.spot) here.entry.place tables.old row) result }
{
    let leaf = push_literal(tables, row)?;
    Ok(unsited(here, tables, leaf))
}

// The form that a definition of a file stands for: the symbol of its name, whose literal is met first.
fn named_form(here: Here, tables: &mut Tables, datum: &Datum) -> Result<Leaf, NoMemory>
    ensures form { IfOk result (λ form. form ≡ row.named_form here.entry.spot.sited tables.old) }
    ensures ok { OnOk result (tables.new ≡ row.with_name here.entry.spot.sited datum.now tables.old) }
    ensures grows { TablesGrow tables.old tables.new }
{
    if !here.spot.sited {
        return Ok(Leaf::Nothing);
    }
    push_literal(tables, LiteralRow::Datum(datum.copy(here.alloc)?))
}

// Where the forms of a definition's body stand: its depth begins anew.
fn alone_spot(spot: Spot, in_method: bool) -> Spot
    ensures { result ≡ word.alone_spot in_method spot }
{
    Spot {
        depth: 1,
        top: false,
        in_method,
        sited: spot.sited,
        in_row: 0,
    }
}

// The definition of a function or a macro.
#[tactic(auto, using(crate::proofs::Lists::nothing_bound))]
fn take_definition<'a>(
    here: Here,
    tables: &mut Tables,
    defined: Defined<'a>,
) -> Result<Plan<'a>, NoMemory>
    ensures { IsPlan here.entry.bound.now tables.old tables.new
        (drawn (at here.entry.bound.now here.entry.spot) here.entry.place tables.old (Draft.Defines defined.entry)) result }
{
    let Ok(leaf) = named_form(here, tables, defined.datum) else {
        drop(defined);
        return Err(NoMemory);
    };
    let spot = alone_spot(here.spot, false);
    Ok(Plan::Whole(Work {
        outside: spot,
        inside: spot,
        binds: BoundList::new(here.alloc),
        parts: defined.parts,
        inner: defined.inner,
        made: Made {
            site: None,
            making: Elaboration::OfFunctionNamed(
                defined.kind,
                defined.name,
                defined.required,
                defined.rest,
                here.spot.sited,
                leaf,
            ),
        },
    }))
}

// The same of a definition of that name at that place.
fn symbol_form(here: Here, tables: &mut Tables, place: Place, name: Name) -> Result<Leaf, NoMemory>
    ensures form { IfOk result (λ form. form ≡ row.named_form here.entry.spot.sited tables.old) }
    ensures ok { OnOk result (tables.new ≡ row.with_name here.entry.spot.sited (item place (symbol (Symbol.Named name))) tables.old) }
    ensures grows { TablesGrow tables.old tables.new }
{
    if !here.spot.sited {
        return Ok(Leaf::Nothing);
    }
    let datum = Datum::new(place, Kind::Sym(Symbol::Named(name)));
    push_literal(tables, LiteralRow::Datum(datum))
}

// A definition whose parts stand where it stands.
#[tactic(auto, using(crate::proofs::Lists::nothing_bound, crate::proofs::Lists::nothing_inside))]
fn definition<'a>(here: Here, tables: &Tables, parts: Parts<'a>, making: Elaboration) -> Plan<'a>
    ensures { shown here.entry.bound.now tables.now result
        ≡ whole (at here.entry.bound.now here.entry.spot) (at here.entry.bound.now here.entry.spot) tables.now
        (view_parts parts.entry) (record { site = None; making = making }) }
{
    Plan::Whole(Work {
        outside: here.spot,
        inside: here.spot,
        binds: BoundList::new(here.alloc),
        parts,
        inner: Inner::new(here.alloc),
        made: Made { site: None, making },
    })
}

// The definition of methods.
fn take_methods<'a>(
    here: Here,
    tables: &mut Tables,
    defined: DefinedMethods<'a>,
) -> Result<Plan<'a>, NoMemory>
    ensures { IsPlan here.entry.bound.now tables.old tables.new
        (drawn (at here.entry.bound.now here.entry.spot) here.entry.place tables.old (Draft.DefinesMethods defined.entry)) result }
{
    let Ok(leaf) = symbol_form(here, tables, defined.place, defined.name) else {
        drop(defined);
        return Err(NoMemory);
    };
    let first = tables.procedures.len();
    let making = Elaboration::OfMethods(defined.taker, defined.heads, first, here.spot.sited, leaf);
    Ok(definition(here, tables, defined.parts, making))
}

// The definition of a class.
fn take_class<'a>(
    here: Here,
    tables: &mut Tables,
    defined: DefinedClass<'a>,
) -> Result<Plan<'a>, NoMemory>
    ensures { IsPlan here.entry.bound.now tables.old tables.new
        (drawn (at here.entry.bound.now here.entry.spot) here.entry.place tables.old (Draft.DefinesClass defined.entry)) result }
{
    let Ok(leaf) = named_form(here, tables, defined.datum) else {
        drop(defined);
        return Err(NoMemory);
    };
    let first = tables.procedures.len();
    let making = Elaboration::OfClass(defined.class, first, here.spot.sited, leaf);
    Ok(definition(here, tables, defined.parts, making))
}

/// The plan that a draft is for, which lacks no name; after `NoMemory` the tables may have grown.
pub fn take<'a>(here: Here, tables: &mut Tables, draft: Draft<'a>) -> Result<Plan<'a>, NoMemory>
    requires { is_unnamed (drawn (at here.bound.now here.spot) here.place tables.old draft) ≡ false }
    ensures { IsPlan here.entry.bound.now tables.old tables.new
        (drawn (at here.entry.bound.now here.entry.spot) here.entry.place tables.old draft.entry) result }
{
    match draft {
        Draft::Offends(place, reason) => Ok(Plan::Offends(place, reason)),
        Draft::Unnamed => unreachable!(),
        Draft::Literal(row) => take_literal(here, tables, row),
        Draft::Unsited(leaf) => Ok(unsited(here, tables, leaf)),
        Draft::Sited(sketch) => take_sketch(here, tables, sketch),
        Draft::Defines(defined) => take_definition(here, tables, defined),
        Draft::DefinesMethods(defined) => take_methods(here, tables, defined),
        Draft::DefinesClass(defined) => take_class(here, tables, defined),
    }
}
