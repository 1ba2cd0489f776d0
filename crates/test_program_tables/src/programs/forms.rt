// Core forms as data: the word of a form, and its parts in order.

use crate::inputs::{command, found, id, items, name, number, pair};
use crate::programs::lambda::{around, rest_or_nil};
use crate::programs::make::{head_of, leaf, listed, named, nested, numbered, paired, under};
use crate::programs::words::{Headed, List, Named, Numbered, Pair, WORDS, Word};
use base::{Datum, Names};
use lang_meaning::{
    Binding, BindingList, Clause, ClauseList, Core, CoreForm, CoreList, DynBinding, DynBindings,
};
use test_rows::RowAnswer;

/// The form of a datum, with fewer than `depth` forms inside one another.
#[cycle(forms)]
pub fn form(got: &mut RowAnswer, names: &Names, datum: &Datum, depth: u32) -> Option<Core> {
    if depth == 0 {
        return None;
    }
    let (head, parts) = command(names, datum)?;
    match found(WORDS, head)? {
        Word::Nest => nest(got, names, parts, depth - 1),
        word => Some(Core::new(kind(got, names, word, parts, depth - 1)?)),
    }
}

#[cycle(forms)]
fn nest(got: &mut RowAnswer, names: &Names, parts: &[Datum], depth: u32) -> Option<Core> {
    let [count, inner] = parts else {
        return None;
    };
    let count = number(count)?;
    let inner = form(got, names, inner, depth)?;
    Some(nested(got, count, inner))
}

// The form of that word and these parts.
#[cycle(forms)]
fn kind(
    got: &mut RowAnswer,
    names: &Names,
    word: Word,
    parts: &[Datum],
    depth: u32,
) -> Option<CoreForm> {
    match word {
        Word::Leaf(word) => leaf(word, parts),
        Word::Numbered(word) => numbered_form(got, names, word, parts, depth),
        Word::Named(word) => named_form(got, names, word, parts, depth),
        Word::Pair(word) => pair_form(got, names, word, parts, depth),
        Word::List(word) => list_form(got, names, word, parts, depth),
        Word::Headed(word) => headed_form(got, names, word, parts, depth),
        Word::Clauses => clauses_form(got, names, parts, depth),
        Word::Let => let_form(got, names, parts, depth),
        Word::DynamicLet => dynamic_let_form(got, names, parts, depth),
        Word::Lambda => lambda_form(got, names, parts, depth),
        Word::Nest => None,
    }
}

#[cycle(forms)]
fn numbered_form(
    got: &mut RowAnswer,
    names: &Names,
    word: Numbered,
    parts: &[Datum],
    depth: u32,
) -> Option<CoreForm> {
    let [own, inner] = parts else {
        return None;
    };
    let own = id(own)?;
    Some(numbered(word, own, boxed(got, names, inner, depth)?))
}

#[cycle(forms)]
fn named_form(
    got: &mut RowAnswer,
    names: &Names,
    word: Named,
    parts: &[Datum],
    depth: u32,
) -> Option<CoreForm> {
    let [own, inner] = parts else {
        return None;
    };
    let own = name(own)?;
    Some(named(word, own, boxed(got, names, inner, depth)?))
}

#[cycle(forms)]
fn pair_form(
    got: &mut RowAnswer,
    names: &Names,
    word: Pair,
    parts: &[Datum],
    depth: u32,
) -> Option<CoreForm> {
    let [first, second] = parts else {
        return None;
    };
    let first = boxed(got, names, first, depth)?;
    let Some(second) = boxed(got, names, second, depth) else {
        drop(first);
        return None;
    };
    Some(paired(word, first, second))
}

#[cycle(forms)]
fn list_form(
    got: &mut RowAnswer,
    names: &Names,
    word: List,
    parts: &[Datum],
    depth: u32,
) -> Option<CoreForm> {
    Some(listed(word, forms(got, names, parts, depth)?))
}

#[cycle(forms)]
fn headed_form(
    got: &mut RowAnswer,
    names: &Names,
    word: Headed,
    parts: &[Datum],
    depth: u32,
) -> Option<CoreForm> {
    let [own, inner @ ..] = parts else {
        return None;
    };
    let own = head_of(names, word, own)?;
    Some(under(own, forms(got, names, inner, depth)?))
}

#[cycle(forms)]
fn clauses_form(
    got: &mut RowAnswer,
    names: &Names,
    parts: &[Datum],
    depth: u32,
) -> Option<CoreForm> {
    let mut list = ClauseList::new(got.alloc);
    for datum in parts {
        let clause = clause(got, names, datum, depth)?;
        got.add(&mut list, clause);
    }
    Some(CoreForm::Clauses(list))
}

// `(TEST BODY)`, or `(TEST)` alone.
#[cycle(forms)]
fn clause(got: &mut RowAnswer, names: &Names, datum: &Datum, depth: u32) -> Option<Clause> {
    match items(datum)? {
        [test] => {
            let test = form(got, names, test, depth)?;
            Some(Clause { test, body: None })
        }
        [test, body] => {
            let test = form(got, names, test, depth)?;
            let Some(body) = form(got, names, body, depth) else {
                drop(test);
                return None;
            };
            Some(Clause {
                test,
                body: Some(body),
            })
        }
        _ => None,
    }
}

#[cycle(forms)]
fn let_form(got: &mut RowAnswer, names: &Names, parts: &[Datum], depth: u32) -> Option<CoreForm> {
    let [all, body] = parts else {
        return None;
    };
    let list = bindings(got, names, items(all)?, depth)?;
    let Some(body) = boxed(got, names, body, depth) else {
        drop(list);
        return None;
    };
    Some(CoreForm::Let(list, body))
}

// `(VARIABLE VALUE)` each.
#[cycle(forms)]
fn bindings(got: &mut RowAnswer, names: &Names, data: &[Datum], depth: u32) -> Option<BindingList> {
    let mut list = BindingList::new(got.alloc);
    for datum in data {
        let (var, value) = pair(datum)?;
        let var = id(var)?;
        let value = form(got, names, value, depth)?;
        got.add(&mut list, Binding { var, value });
    }
    Some(list)
}

#[cycle(forms)]
fn dynamic_let_form(
    got: &mut RowAnswer,
    names: &Names,
    parts: &[Datum],
    depth: u32,
) -> Option<CoreForm> {
    let [all, body] = parts else {
        return None;
    };
    let list = dynamic_bindings(got, names, items(all)?, depth)?;
    let Some(body) = boxed(got, names, body, depth) else {
        drop(list);
        return None;
    };
    Some(CoreForm::DynamicLet(list, body))
}

// `(NAME VALUE)` each.
#[cycle(forms)]
fn dynamic_bindings(
    got: &mut RowAnswer,
    names: &Names,
    data: &[Datum],
    depth: u32,
) -> Option<DynBindings> {
    let mut list = DynBindings::new(got.alloc);
    for datum in data {
        let (variable, value) = pair(datum)?;
        let name = name(variable)?;
        let value = form(got, names, value, depth)?;
        got.add(&mut list, DynBinding { name, value });
    }
    Some(list)
}

// Required variables, a rest variable, a body, and the captured parts.
#[cycle(forms)]
fn lambda_form(
    got: &mut RowAnswer,
    names: &Names,
    parts: &[Datum],
    depth: u32,
) -> Option<CoreForm> {
    let [variables, rest, body, captured @ ..] = parts else {
        return None;
    };
    let rest = rest_or_nil(rest)?;
    let body = boxed(got, names, body, depth)?;
    let Some((required, captured)) = around(got, names, variables, captured) else {
        drop(body);
        return None;
    };
    Some(CoreForm::Lambda(required, rest, body, captured))
}

#[cycle(forms)]
fn boxed(got: &mut RowAnswer, names: &Names, datum: &Datum, depth: u32) -> Option<Box<Core>> {
    let core = form(got, names, datum, depth)?;
    got.kept(Box::new(got.alloc, core))
}

#[cycle(forms)]
fn forms(got: &mut RowAnswer, names: &Names, data: &[Datum], depth: u32) -> Option<CoreList> {
    let mut list = CoreList::new(got.alloc);
    for datum in data {
        let core = form(got, names, datum, depth)?;
        got.add(&mut list, core);
    }
    Some(list)
}
