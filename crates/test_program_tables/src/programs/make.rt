// Core forms, made of what stands behind their words.

use crate::inputs::{id, name, number};
use crate::programs::primitives::primitive;
use crate::programs::words::{Headed, Leaf, List, Named, Numbered, Pair};
use base::{Datum, Name, Names};
use lang_meaning::{Core, CoreForm, CoreList, ExitVar, Primitive};
use test_rows::RowAnswer;

/// A form with no form inside.
pub fn leaf(word: Leaf, parts: &[Datum]) -> Option<CoreForm> {
    match parts {
        [] => empty(word),
        [own] => single(word, own),
        [exit, segment] => jump(word, exit, segment),
        _ => None,
    }
}

fn empty(word: Leaf) -> Option<CoreForm> {
    match word {
        Leaf::NextMethod => Some(CoreForm::NextMethod),
        Leaf::HasNext => Some(CoreForm::HasNext),
        _ => None,
    }
}

fn single(word: Leaf, own: &Datum) -> Option<CoreForm> {
    match word {
        Leaf::Literal => Some(CoreForm::Literal(id(own)?)),
        Leaf::Local => Some(CoreForm::Local(id(own)?)),
        Leaf::Global => Some(CoreForm::Global(name(own)?)),
        Leaf::Dynamic => Some(CoreForm::Dynamic(name(own)?)),
        _ => None,
    }
}

fn jump(word: Leaf, exit: &Datum, segment: &Datum) -> Option<CoreForm> {
    match word {
        Leaf::Go => Some(CoreForm::Go(id(exit)?, number(segment)?)),
        _ => None,
    }
}

/// A form of a number and a form.
pub fn numbered(word: Numbered, own: usize, inner: Box<Core>) -> CoreForm {
    match word {
        Numbered::SetLocal => CoreForm::SetLocal(own, inner),
        Numbered::Block => CoreForm::Block(own, inner),
        Numbered::Return => CoreForm::Return(own, inner),
        Numbered::Sited => CoreForm::Sited(own, inner),
    }
}

/// A form of a name and a form.
pub fn named(word: Named, own: Name, inner: Box<Core>) -> CoreForm {
    match word {
        Named::SetGlobal => CoreForm::SetGlobal(own, inner),
        Named::DefGlobal => CoreForm::DefGlobal(own, inner),
        Named::SetDynamic => CoreForm::SetDynamic(own, inner),
        Named::DefDynamic => CoreForm::DefDynamic(own, inner),
    }
}

/// A form of two forms.
pub fn paired(word: Pair, first: Box<Core>, second: Box<Core>) -> CoreForm {
    match word {
        Pair::Apply => CoreForm::Apply(first, second),
        Pair::While => CoreForm::While(first, second),
        Pair::Catch => CoreForm::Catch(first, second),
        Pair::Throw => CoreForm::Throw(first, second),
        Pair::Unwind => CoreForm::Unwind(first, second),
        Pair::WithHandler => CoreForm::WithHandler(first, second),
        Pair::Signal => CoreForm::Signal(first, second),
        Pair::Continue => CoreForm::Continue(first, second),
    }
}

/// A form of forms alone.
pub fn listed(word: List, list: CoreList) -> CoreForm {
    match word {
        List::Sequence => CoreForm::Sequence(list),
        List::CallValue => CoreForm::CallValue(list),
    }
}

/// What stands in front of forms.
#[derive(Clone, Copy)]
pub enum Head {
    Call(Name),
    Prim(Primitive),
    Tagbody(ExitVar),
}

/// What this datum stands for in front of forms.
pub fn head_of(names: &Names, word: Headed, own: &Datum) -> Option<Head> {
    match word {
        Headed::Call => Some(Head::Call(name(own)?)),
        Headed::Prim => Some(Head::Prim(primitive(names, own)?)),
        Headed::Tagbody => Some(Head::Tagbody(id(own)?)),
    }
}

/// A form of forms and what stands in front of them.
pub fn under(head: Head, list: CoreList) -> CoreForm {
    match head {
        Head::Call(function) => CoreForm::Call(function, list),
        Head::Prim(which) => CoreForm::Prim(which, list),
        Head::Tagbody(exit) => CoreForm::Tagbody(exit, list),
    }
}

/// The form inside so many sequences of one form each.
pub fn nested(got: &mut RowAnswer, count: u32, inner: Core) -> Core {
    let mut outer = inner;
    for _ in 0..count {
        let mut list = CoreList::new(got.alloc);
        got.add(&mut list, outer);
        outer = Core::sequence(list);
    }
    outer
}
