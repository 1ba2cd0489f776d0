// The frames of the machine's stack: what waits, and for what.

use crate::situation::{Activation, DynamicLinks, Situation};
use base::{ItemList, Name, Place};
use eval_store::{Arguments, Rest, Word};
use flat_language::{
    ExitPlace, FlatBindingList, FlatClauseList, FlatCore, FlatCoreList, FlatDynBindings,
    VariablePlace,
};
use lang_meaning::{Primitive, ProcedureId};
use std::rc::Rc;

/// What is done with arguments: the function of a name is applied to them, the first to the others, or a primitive computes.
#[derive(Clone, Copy)]
pub enum Operator {
    CallName(Name),
    CallFirst,
    Compute(Primitive),
}

/// Where a transfer arrives: at a segment of its form, or, at the end of the program, at a site.
#[derive(Clone, Copy)]
pub enum Landing {
    Segment(u32),
    Site(Place),
}

/// What an evaluation comes to.
#[derive(Clone, Copy)]
pub enum Outcome {
    Value(Word),
    Exit(u64, Word, Landing),
    Full { asked: u64, left: u64 },
    More,
}

/// A frame. Forms that wait say by a number how far a list is; the values so far are on top of the operands.
#[derive(Drop)]
pub enum ContinuationFrame<'p> {
    SetLocal(VariablePlace, Situation),
    SetGlobal(Name, Situation),
    DefGlobal(Name),
    /// The forms from that one on are left.
    Sequence(&'p FlatCoreList, usize, Situation),
    /// The clause whose test is evaluated.
    Clause(&'p FlatClauseList, usize, Situation),
    /// The binding, argument or dynamic binding whose value is evaluated.
    Binding(&'p FlatBindingList, usize, &'p FlatCore, Situation),
    Argument(Operator, &'p FlatCoreList, usize, Situation),
    DynamicValue(&'p FlatDynBindings, usize, &'p FlatCore, Situation),
    AppliedFunction(&'p FlatCore, Situation),
    AppliedList(Word, Situation),
    WhileTest(&'p FlatCore, &'p FlatCore, Situation),
    WhileBody(&'p FlatCore, &'p FlatCore, Situation),
    ReturnValue(ExitPlace, Situation),
    LastSegment,
    CatchTag(&'p FlatCore, Situation),
    ThrowTag(&'p FlatCore, Situation),
    ThrowValue(Word, Situation),
    SetDynamic(Name, Situation),
    DefDynamic(Name),
    HandlerValue(&'p FlatCore, Situation),
    SignalCondition(&'p FlatCore, Situation),
    SignalMark(Word, Situation),
    ContinueCondition(&'p FlatCore, Situation),
    ContinueValue(Word, Situation),
    /// A value is passed over, and what was there before comes again.
    Kept(Outcome),
    /// Methods one after another: those from that one on are left.
    Methods(&'p ItemList<ProcedureId>, usize, Rc<Arguments>, u64, DynamicLinks),
    /// The before methods of a chain, behind which its first primary method comes.
    BeforeMethods(Rest<'p>, Rc<Arguments>, u64, DynamicLinks),
    /// The first primary method of a chain, behind which its after methods come.
    PrimaryMethod(Rest<'p>, Rc<Arguments>, u64, DynamicLinks),
    HandlerReturn(u64, DynamicLinks),
    /// A main form, with the words of the stack before it.
    MainForm(u64),
    /// The main forms from that one on are left. The exit of the program's end.
    MainForms(u64, &'p FlatCoreList, usize),
    /// Exits, each with links to the exits outside it.
    Block {
        number: u64,
        exits: usize,
        own: usize,
    },
    Catch {
        number: u64,
        tag: Word,
        exits: usize,
    },
    Signal {
        number: u64,
        condition: Word,
        mark: Word,
        exits: usize,
    },
    Tagbody {
        number: u64,
        segments: &'p FlatCoreList,
        outside: Situation,
    },
    Cleans(&'p FlatCore, Situation),
    RestoresStack(u64),
    RestoresSlots(Activation<'p>),
    DropsSlots(usize),
    /// A handler, and dynamic bindings with the number of the first one's variable; each with a link to those outside.
    Handles(Word, usize),
    Binds(&'p FlatDynBindings, usize, usize),
}
