// Core forms as rows write them.

use crate::primitives::text;
use base::{Name, Names};
use lang_meaning::{Capture, Core, CoreForm, Var};
use test_rows::RowAnswer;

/// Appends a form whose forms stand inside one another at most so deep; none of a deeper one. It is written as a list of what it
/// is, its numbers and names, and the forms right inside it: `l0` is a literal, `v0` a variable, `x0` an exit.
#[cycle(forms)]
pub fn put_form(got: &mut RowAnswer, names: &Names, core: &Core, depth: u32) -> Option<()> {
    if depth == 0 {
        return None;
    }
    got.put("(");
    put_head(got, names, &core.form)?;
    for form in core.outer() {
        got.put(" ");
        put_form(got, names, form, depth - 1)?;
    }
    for form in core.inner() {
        got.put(" ");
        put_form(got, names, form, depth - 1)?;
    }
    got.put(")");
    Some(())
}

// What a form is, with its numbers and names.
fn put_head(got: &mut RowAnswer, names: &Names, form: &CoreForm) -> Option<()> {
    match form {
        CoreForm::Literal(row) => put_number(got, "l", *row),
        CoreForm::Local(var) => put_number(got, "v", *var),
        CoreForm::SetLocal(var, _) => put_number(got, "set v", *var),
        CoreForm::Global(name) => put_named(got, names, "global ", *name)?,
        CoreForm::SetGlobal(name, _) => put_named(got, names, "set-global ", *name)?,
        CoreForm::DefGlobal(name, _) => put_named(got, names, "def-global ", *name)?,
        CoreForm::Dynamic(name) => put_named(got, names, "dynamic ", *name)?,
        CoreForm::SetDynamic(name, _) => put_named(got, names, "set-dynamic ", *name)?,
        CoreForm::DefDynamic(name, _) => put_named(got, names, "def-dynamic ", *name)?,
        CoreForm::Call(name, _) => put_named(got, names, "call ", *name)?,
        CoreForm::Prim(which, _) => got.put(text(*which)),
        CoreForm::Block(exit, _) => put_number(got, "block x", *exit),
        CoreForm::Return(exit, _) => put_number(got, "return x", *exit),
        CoreForm::Tagbody(exit, _) => put_number(got, "tagbody x", *exit),
        CoreForm::Go(exit, segment) => {
            put_number(got, "go x", *exit);
            got.push(*segment);
        }
        CoreForm::Sited(site, _) => put_number(got, "@", *site),
        _ => put_other_head(got, names, form)?,
    }
    Some(())
}

// The same of those that have neither a number nor a name, or lists of them.
fn put_other_head(got: &mut RowAnswer, names: &Names, form: &CoreForm) -> Option<()> {
    match form {
        CoreForm::Clauses(list) => {
            got.put("clauses");
            for clause in list.as_slice() {
                got.put(if clause.body.is_some() { " 2" } else { " 1" });
            }
        }
        CoreForm::Let(list, _) => {
            got.put("let");
            for binding in list.as_slice() {
                put_number(got, " v", binding.var);
            }
        }
        CoreForm::DynamicLet(list, _) => {
            got.put("dynamic-let");
            for binding in list.as_slice() {
                put_named(got, names, " ", binding.name)?;
            }
        }
        CoreForm::Lambda(required, rest, _, parts) => {
            got.put("lambda");
            put_variables(got, required.as_slice(), *rest);
            put_parts(got, parts.as_slice());
        }
        CoreForm::Sequence(_) => got.put("progn"),
        CoreForm::CallValue(_) => got.put("call-value"),
        CoreForm::Apply(_, _) => got.put("apply"),
        CoreForm::While(_, _) => got.put("while"),
        CoreForm::Catch(_, _) => got.put("catch"),
        CoreForm::Throw(_, _) => got.put("throw"),
        CoreForm::Unwind(_, _) => got.put("unwind"),
        CoreForm::WithHandler(_, _) => got.put("with-handler"),
        CoreForm::Signal(_, _) => got.put("signal"),
        CoreForm::Continue(_, _) => got.put("continue"),
        CoreForm::NextMethod => got.put("next-method"),
        CoreForm::HasNext => got.put("has-next"),
        _ => return None,
    }
    Some(())
}

/// Appends variables, each behind a blank, and `&` in front of one of the rest.
pub fn put_variables(got: &mut RowAnswer, required: &[Var], rest: Option<Var>) {
    for var in required {
        put_number(got, " v", *var);
    }
    if let Some(var) = rest {
        put_number(got, " &v", var);
    }
}

// Appends the parts that a function captures, in brackets.
fn put_parts(got: &mut RowAnswer, parts: &[Capture]) {
    for part in parts {
        match part {
            Capture::Variable(var) => put_number(got, " [v", *var),
            Capture::Exit(exit) => put_number(got, " [x", *exit),
            Capture::Method => got.put(" [method"),
        }
        got.put("]");
    }
}

// Appends a number behind a word.
fn put_number(got: &mut RowAnswer, word: &'static str, number: usize) {
    got.put(word);
    got.put(number);
}

/// Appends a name behind a word.
pub fn put_named(got: &mut RowAnswer, names: &Names, word: &'static str, name: Name) -> Option<()> {
    got.put(word);
    got.put_bytes(names.text(name)?);
    Some(())
}
