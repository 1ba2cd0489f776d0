// A form begins that wants the machine alone.

ghost use Rattle.std.specs.Prelude.{◌≡◌, false, OnOk};
ghost use Rattle.flat_language.specs.FlatForm.{while_form};
ghost use Rattle.flat_language.specs.model.View.{view_form};
ghost use Rattle.eval_state.specs.View.{ContinuesAs, at};
ghost use Rattle.eval_control.specs.Begins.{begins, FormWantsMore};

use crate::blocks::{block, tagbody};
use crate::functions::make_function;
use crate::jumps::go;
use crate::lists::{bindings, clauses, dynamics, sequence};
use crate::literals::literal;
use crate::locals::local;
use crate::next_methods::has_next;
use crate::sites::form_at_site;
use base::NoMemory;
use eval_state::frame::ContinuationFrame;
use eval_state::machine::Machine;
use eval_state::situation::Situation;
use eval_store::Word;
use flat_language::{FlatCore, FlatCoreForm};

/// A loop begins, or goes on.
pub fn loop_turn<'p>(
    machine: &mut Machine<'p>,
    test: &'p FlatCore,
    body: &'p FlatCore,
    situation: Situation,
) -> Result<(), NoMemory>
    ensures { OnOk result (ContinuesAs machine.old machine.new 0 (λ names s. begins s (while_form test.now body.now) (at names machine.old situation))) }
{
    machine.wait(
        ContinuationFrame::WhileTest(test, body, situation),
        test,
        situation,
    )
}

/// What a form does, once it is charged.
pub fn begin_kind<'p>(
    machine: &mut Machine<'p>,
    form: &'p FlatCoreForm,
    situation: Situation,
) -> Result<(), NoMemory>
    requires { FormWantsMore (view_form form.now) ≡ false }
    ensures { OnOk result (ContinuesAs machine.old machine.new 0 (λ names s. begins s (view_form form.now) (at names machine.old situation))) }
{
    match form {
        FlatCoreForm::Literal(id) => literal(machine, *id, situation),
        FlatCoreForm::Local(place) => local(machine, *place, situation),
        FlatCoreForm::Clauses(list) => clauses(machine, list, 0, situation),
        FlatCoreForm::Sequence(list) => sequence(machine, Word::Nil, list, 0, situation),
        FlatCoreForm::Let(list, body) => bindings(machine, list, 0, body, situation),
        FlatCoreForm::MakeFunction(number, parts) => make_function(
            machine, *number, parts, situation,
        ),
        FlatCoreForm::While(test, body) => loop_turn(machine, test, body, situation),
        FlatCoreForm::Block(body) => block(machine, body, situation),
        FlatCoreForm::Tagbody(list) => tagbody(machine, list, situation),
        FlatCoreForm::Go(exit, segment) => go(machine, *exit, *segment, situation),
        FlatCoreForm::DynamicLet(list, body) => dynamics(machine, list, 0, body, situation),
        FlatCoreForm::HasNext(place) => has_next(machine, *place, situation),
        FlatCoreForm::Sited(site, form) => form_at_site(machine, *site, form, situation),
        FlatCoreForm::SetLocal(place, inside) => machine.wait(
            ContinuationFrame::SetLocal(*place, situation),
            inside,
            situation,
        ),
        FlatCoreForm::SetGlobal(name, inside) => machine.wait(
            ContinuationFrame::SetGlobal(*name, situation),
            inside,
            situation,
        ),
        FlatCoreForm::DefGlobal(name, inside) => machine.wait(
            ContinuationFrame::DefGlobal(*name),
            inside,
            situation,
        ),
        FlatCoreForm::Apply(function, list) => machine.wait(
            ContinuationFrame::AppliedFunction(list, situation),
            function,
            situation,
        ),
        FlatCoreForm::Return(exit, inside) => machine.wait(
            ContinuationFrame::ReturnValue(*exit, situation),
            inside,
            situation,
        ),
        FlatCoreForm::Catch(tag, body) => machine.wait(
            ContinuationFrame::CatchTag(body, situation),
            tag,
            situation,
        ),
        FlatCoreForm::Throw(tag, value) => machine.wait(
            ContinuationFrame::ThrowTag(value, situation),
            tag,
            situation,
        ),
        FlatCoreForm::Unwind(inside, cleanup) => machine.wait(
            ContinuationFrame::Cleans(cleanup, situation),
            inside,
            situation,
        ),
        FlatCoreForm::SetDynamic(name, inside) => machine.wait(
            ContinuationFrame::SetDynamic(*name, situation),
            inside,
            situation,
        ),
        FlatCoreForm::DefDynamic(name, inside) => machine.wait(
            ContinuationFrame::DefDynamic(*name),
            inside,
            situation,
        ),
        FlatCoreForm::WithHandler(handler, body) => machine.wait(
            ContinuationFrame::HandlerValue(body, situation),
            handler,
            situation,
        ),
        FlatCoreForm::Signal(condition, mark) => machine.wait(
            ContinuationFrame::SignalCondition(mark, situation),
            condition,
            situation,
        ),
        FlatCoreForm::Continue(condition, value) => machine.wait(
            ContinuationFrame::ContinueCondition(value, situation),
            condition,
            situation,
        ),
        FlatCoreForm::Global(_)
        | FlatCoreForm::Dynamic(_)
        | FlatCoreForm::Call(_, _)
        | FlatCoreForm::CallValue(_)
        | FlatCoreForm::Prim(_, _)
        | FlatCoreForm::NextMethod(_) => unreachable!(),
    }
}
