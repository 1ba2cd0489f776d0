// The left sides of rows, and the data that their variables stand for.

ghost use Rattle.std.specs.Prelude.{◌≡◌, ◌∷◌, [], IfOk};
ghost use Rattle.lang_derived.specs.Asked.{is_symbol, is_word};
ghost use Rattle.lang_derived.specs.Patterns.{taken_by, part_if, one_datum, has_setter, all_data, is_some, of_one, fit, fit_all};
ghost use Rattle.lang_derived.specs.model.PatternView.{view_pattern, view_patterns, IsFit};

use crate::setf::setter;
use crate::shape::{is_symbol, is_word, list_items};
use base::{Datum, ItemList, Names, NoMemory};
use std::alloc::Global;
use std::marker::Model;

/// What may stand at a place of a form: a datum x; a symbol; the symbol of a text; an operator whose
/// place can be set; x*; `[x]`; a list of such data; and data x* of which each one fits.
pub(crate) enum Pattern {
    Datum,
    Symbol,
    Name(&'static [u8]),
    Operator,
    Others,
    OneAtMost,
    Inside(&'static [Pattern]),
    Each(&'static [Pattern]),
}

/// The data that a variable stands for.
#[derive(Drop)]
pub(crate) struct Part<'a> {
    pub(crate) data: &'a [Datum],
}

impl<'a> Model for Part<'a> {
    ghost use Rattle.std.specs.Prelude.{List};
    ghost use Rattle.base.specs.Data.{Item};

    ghost Value = { List Item };

    ghost use Rattle.lang_derived.specs.model.PatternView.{part_code};

    ghost coded = { part_code };

    ghost view = { λ p. p.data.now };
}

/// The data of each variable.
pub(crate) type Parts<'a> = ItemList<Part<'a>>;

// Of so many data that are left, how many it takes.
fn taken_by(pattern: &Pattern, left: usize) -> usize
    ensures { result ≡ taken_by (view_pattern pattern.now) left }
{
    match pattern {
        Pattern::Datum => 1,
        Pattern::Symbol => 1,
        Pattern::Name(_) => 1,
        Pattern::Operator => 1,
        Pattern::Others => left,
        Pattern::OneAtMost => left.min(1),
        Pattern::Inside(_) => 1,
        Pattern::Each(_) => left,
    }
}

// One part more, where it holds.
fn part_if<'a>(holds: bool, items: &'a [Datum], parts: &mut Parts<'a>) -> Result<bool, NoMemory>
    ensures { IfOk result (λ fits. IsFit fits parts.old parts.new (part_if holds items.now)) }
{
    if holds {
        parts.push(Part { data: items })?;
    }
    Ok(holds)
}

fn is_one_symbol(items: &[Datum]) -> bool
    ensures { result ≡ one_datum is_symbol items.now }
{
    match items {
        [datum] => is_symbol(datum),
        _ => false,
    }
}

fn is_one_word(names: &Names, text: &[u8], items: &[Datum]) -> bool
    ensures { result ≡ one_datum (is_word names.now text.now) items.now }
{
    match items {
        [datum] => is_word(names, text, datum),
        _ => false,
    }
}

fn is_one_operator(alloc: Global, names: &Names, items: &[Datum]) -> Result<bool, NoMemory>
    ensures { IfOk result (λ holds. holds ≡ one_datum (has_setter names.now) items.now) }
{
    match items {
        [datum] => Ok(setter(alloc, names, datum)?.is_some()),
        _ => Ok(false),
    }
}

// Adds the parts of data that a pattern takes, where they fit.
#[cycle(fit)]
#[tactic(auto, unfolding(crate::specs::Patterns::fit))]
fn fit<'a>(
    alloc: Global,
    names: &Names,
    pattern: &Pattern,
    items: &'a [Datum],
    parts: &mut Parts<'a>,
) -> Result<bool, NoMemory>
    ensures { IfOk result (λ fits. IsFit fits parts.old parts.new (fit names.now (view_pattern pattern.now) items.now)) }
{
    match pattern {
        Pattern::Datum => part_if(items.len() == 1, items, parts),
        Pattern::Symbol => part_if(is_one_symbol(items), items, parts),
        Pattern::Name(text) => Ok(is_one_word(names, text, items)),
        Pattern::Operator => part_if(is_one_operator(alloc, names, items)?, items, parts),
        Pattern::Others => part_if(true, items, parts),
        Pattern::OneAtMost => part_if(true, items, parts),
        Pattern::Inside(patterns) => fit_inside(alloc, names, patterns, items, parts),
        Pattern::Each(patterns) => {
            let fits = each_fits(alloc, names, patterns, items)?;
            part_if(fits, items, parts)
        }
    }
}

// The items of the one list there is.
#[cycle(fit)]
fn fit_inside<'a>(
    alloc: Global,
    names: &Names,
    patterns: &[Pattern],
    items: &'a [Datum],
    parts: &mut Parts<'a>,
) -> Result<bool, NoMemory>
    ensures { IfOk result (λ fits. IsFit fits parts.old parts.new (of_one (λ es. fit_all names.now (view_patterns patterns.now) es) items.now)) }
{
    let [datum] = items else {
        return Ok(false);
    };
    match list_items(datum) {
        Some(items) => fit_all(alloc, names, patterns, items, parts),
        None => Ok(false),
    }
}

// Whether each of the data fits by itself.
#[cycle(fit)]
fn each_fits(
    alloc: Global,
    names: &Names,
    patterns: &[Pattern],
    items: &[Datum],
) -> Result<bool, NoMemory>
    ensures { IfOk result (λ holds. holds ≡ all_data (λ d. is_some (fit_all names.now (view_patterns patterns.now) (d ∷ []))) items.now) }
{
    let mut rest = items;
    while !rest.is_empty() {
        let (first, others) = rest.split_at(1);
        let mut parts = Parts::new(alloc);
        if !fit_all(alloc, names, patterns, first, &mut parts)? {
            return Ok(false);
        }
        rest = others;
    }
    Ok(true)
}

/// Adds the parts of data that such patterns take one after the other, where they fit.
#[cycle(fit)]
#[tactic(auto, unfolding(crate::specs::Patterns::fit_all))]
pub(crate) fn fit_all<'a>(
    alloc: Global,
    names: &Names,
    patterns: &[Pattern],
    items: &'a [Datum],
    parts: &mut Parts<'a>,
) -> Result<bool, NoMemory>
    ensures { IfOk result (λ fits. IsFit fits parts.old parts.new (fit_all names.now (view_patterns patterns.now) items.now)) }
{
    let Some((pattern, others)) = patterns.split_first() else {
        return Ok(items.is_empty());
    };
    let taken = taken_by(pattern, items.len().saturating_sub(others.len()));
    let (front, behind) = items.split_at(taken.min(items.len()));
    if !fit(alloc, names, pattern, front, parts)? {
        return Ok(false);
    }
    fit_all(alloc, names, others, behind, parts)
}
