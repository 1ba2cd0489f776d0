// The right sides of rows, and the parts that a step makes of them.

ghost use Rattle.std.specs.Prelude.{◌≡◌, ◌++◌, ◌∷◌, [], IfOk, OnOk, Some};
ghost use Rattle.lang_derived.specs.Patterns.{fit_all};
ghost use Rattle.lang_derived.specs.model.PatternView.{view_patterns};
ghost use Rattle.lang_derived.specs.RightSides.{part_of, of_first, setter_piece, repeated, write, write_all};
ghost use Rattle.lang_derived.specs.Singles.{IsSingle};
ghost use Rattle.lang_derived.specs.Quotation.{template};
ghost use Rattle.lang_derived.specs.model.TemplateView.{view_template, view_templates};
ghost use Rattle.lang_derived.specs.Pieces.{taken};

use crate::pattern::{Parts, Pattern, fit_all};
use crate::piece::{
    Piece, PieceList, made, made_later, nil, parens, push_made, push_taken, short_word, taken, word,
};
use crate::quotation::template;
use crate::right::later;
use crate::setf::setter;
use base::{Datum, Names, NoMemory};
use std::alloc::Global;

/// A part of a right side. Of the variable with that number: its datum, its data, the function that
/// sets the place of the operator, the form that makes the datum of a quasiquotation. The symbol of a
/// text. The new symbol with that number, the one behind those of a variable's data, and the one of
/// the datum that a repetition has come to. Parts in parentheses. A repetition: for each datum of the
/// variable that fits, with variables of its own.
pub(crate) enum Template {
    One(usize),
    All(usize),
    Setter(usize),
    Quotation(usize),
    Word(&'static [u8]),
    New(usize),
    NewBehind(usize),
    Own,
    Group(&'static [Template]),
    ForEach(usize, &'static [Pattern], &'static [Template]),
}

/// The table of names, and the serial of the first new symbol of a step.
#[derive(Clone, Copy)]
pub(crate) struct Start<'n> {
    pub(crate) alloc: Global,
    pub(crate) names: &'n Names,
    pub(crate) serial: u64,
}

// The data of a variable.
fn part_of<'a>(parts: &Parts<'a>, at: usize) -> &'a [Datum]
    ensures { result.now ≡ part_of parts.now at }
{
    match parts.get(at) {
        Some(part) => part.data,
        None => &[],
    }
}

fn first_taken<'a>(alloc: Global, items: &'a [Datum]) -> Piece<'a>
    ensures { result ≡ of_first (λ d. taken d) items.now }
{
    match items.first() {
        Some(datum) => taken(datum),
        None => nil(alloc),
    }
}

fn first_quoted<'a>(alloc: Global, names: &Names, items: &'a [Datum]) -> Result<Piece<'a>, NoMemory>
    ensures { IfOk result (λ piece. piece ≡ of_first (template names.now 0) items.now) }
{
    match items.first() {
        Some(datum) => template(alloc, names, 0, datum),
        None => Ok(nil(alloc)),
    }
}

// The function that sets the place of the operator.
fn setter_piece<'a>(alloc: Global, names: &Names, items: &[Datum]) -> Result<Piece<'a>, NoMemory>
    ensures { IfOk result (λ piece. piece ≡ setter_piece names.now items.now) }
{
    let Some(operator) = items.first() else {
        return Ok(word(b""));
    };
    match setter(alloc, names, operator)? {
        Some(piece) => Ok(piece),
        None => Ok(word(b"")),
    }
}

// The part that a step writes by a template of one part.
#[tactic(auto, unfolding(crate::specs::RightSides::write))]
fn single<'a>(
    start: Start,
    template: &Template,
    own: u64,
    parts: &Parts<'a>,
) -> Result<Piece<'a>, NoMemory>
    requires { IsSingle (view_template template.now) }
    ensures { IfOk result (λ piece. write start.entry.names.now start.entry.serial (view_template template.now) own parts.now ≡ piece ∷ []) }
{
    match template {
        Template::One(at) => Ok(first_taken(start.alloc, part_of(parts, *at))),
        Template::Setter(at) => setter_piece(start.alloc, start.names, part_of(parts, *at)),
        Template::Quotation(at) => first_quoted(start.alloc, start.names, part_of(parts, *at)),
        Template::Word(text) => short_word(text),
        Template::New(number) => made_later(start.serial, *number as u64),
        Template::NewBehind(at) => made_later(start.serial, part_of(parts, *at).len() as u64),
        Template::Own => Ok(made(own)),
        _ => unreachable!(),
    }
}

// Appends what a step writes by a template.
#[cycle(write)]
#[tactic(auto, using(crate::proofs::Lists::pushed_single), unfolding(crate::specs::RightSides::write))]
fn write<'a>(
    start: Start,
    template: &Template,
    own: u64,
    parts: &Parts<'a>,
    list: &mut PieceList<'a>,
) -> Result<(), NoMemory>
    ensures { OnOk result (list.new ≡ list.old ++ write start.entry.names.now start.entry.serial (view_template template.now) own parts.now) }
{
    match template {
        Template::All(at) => push_taken(list, part_of(parts, *at)),
        Template::Group(templates) => {
            let mut inner = PieceList::new(start.alloc);
            write_all(start, templates, own, parts, &mut inner)?;
            list.push(parens(inner))
        }
        Template::ForEach(at, patterns, templates) => {
            write_each(start, patterns, templates, part_of(parts, *at), list)
        }
        Template::One(_)
        | Template::Setter(_)
        | Template::Quotation(_)
        | Template::Word(_)
        | Template::New(_)
        | Template::NewBehind(_)
        | Template::Own => push_made(list, single(start, template, own, parts)),
    }
}

// Appends what a step writes for each datum that fits.
#[cycle(write)]
fn write_each<'a>(
    start: Start,
    patterns: &[Pattern],
    templates: &[Template],
    items: &'a [Datum],
    list: &mut PieceList<'a>,
) -> Result<(), NoMemory>
    ensures { OnOk result (list.new ≡ list.old ++ repeated start.entry.names.now (view_patterns patterns.now)
        (λ n found. write_all start.entry.names.now start.entry.serial (view_templates templates.now) n found) items.now start.entry.serial) }
{
    let mut rest = items;
    let mut own = start.serial;
    while !rest.is_empty() {
        let (first, others) = rest.split_at(1);
        let mut parts = Parts::new(start.alloc);
        if fit_all(start.alloc, start.names, patterns, first, &mut parts)? {
            write_all(start, templates, own, &parts, list)?;
            own = later(own, 1)?;
        }
        rest = others;
    }
    Ok(())
}

// Appends what a step writes by templates, one after the other.
#[cycle(write)]
#[tactic(auto, unfolding(crate::specs::RightSides::write_all))]
fn write_all<'a>(
    start: Start,
    templates: &[Template],
    own: u64,
    parts: &Parts<'a>,
    list: &mut PieceList<'a>,
) -> Result<(), NoMemory>
    ensures { OnOk result (list.new ≡ list.old ++ write_all start.entry.names.now start.entry.serial (view_templates templates.now) own parts.now) }
{
    let Some((first, others)) = templates.split_first() else {
        return Ok(());
    };
    write(start, first, own, parts, list)?;
    write_all(start, others, own, parts, list)
}

/// What a step writes by templates, for a form with these parts.
pub(crate) fn written<'a>(
    start: Start,
    templates: &[Template],
    parts: &Parts<'a>,
) -> Result<PieceList<'a>, NoMemory>
    ensures { IfOk result (λ list. list ≡ write_all start.entry.names.now start.entry.serial (view_templates templates.now) start.entry.serial parts.now) }
{
    let mut list = PieceList::new(start.alloc);
    write_all(start, templates, start.serial, parts, &mut list)?;
    Ok(list)
}
