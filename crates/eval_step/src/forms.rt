// A form begins.

ghost use Rattle.std.specs.Prelude.{◌≡◌, true, OnOk};
ghost use Rattle.flat_language.specs.FlatForm.{while_form};
ghost use Rattle.flat_language.specs.model.View.{view_form};
ghost use Rattle.eval_machine.specs.Step.{form_step, arguments_step};
ghost use Rattle.eval_state.specs.Frames.{forms_from, last_of, operation_of};
ghost use Rattle.eval_state.specs.View.{at, top};
ghost use Rattle.eval_control.specs.Begins.{begins};
ghost use Rattle.eval_step.specs.Runs.{RunsAs, Runs};
ghost use Rattle.eval_step.specs.Streams.{operation_reads, form_reads, is_fed};

use crate::evaluator::Evaluator;
use crate::named::Table;
use base::NoMemory;
use eval_application::calls::next_method_at;
use eval_control::forms::{begin_kind, loop_turn};
use eval_state::frame::{ContinuationFrame, Operator};
use eval_state::nodes::own_nodes;
use eval_state::situation::Situation;
use flat_language::{FlatCore, FlatCoreForm, FlatCoreList};

impl<'p> Evaluator<'p> {
    /// A form begins: it is charged, and then it does its first part. What it reads is there.
    pub fn begin(&mut self, form: &'p FlatCore, situation: Situation) -> Result<(), NoMemory>
        requires { form_reads form.now ≡ true → is_fed self.old ≡ true }
        ensures { OnOk result (RunsAs self.old self.new 0 (λ names s. form_step s form.now (at names self.old.machine situation))) }
    {
        let units = own_nodes(&form.form)?;
        self.machine.charge(units)?;
        self.begin_kind(&form.form, situation)
    }

    /// A loop goes on, as it began.
    pub fn again(
        &mut self,
        test: &'p FlatCore,
        body: &'p FlatCore,
        situation: Situation,
    ) -> Result<(), NoMemory>
        ensures { OnOk result (RunsAs self.old self.new 0 (λ names s. form_step s (while_form test.now body.now) (at names self.old.machine situation))) }
    {
        self.machine.charge(1)?;
        loop_turn(&mut self.machine, test, body, situation)
    }

    // What a form does, once it is charged.
    fn begin_kind(&mut self, form: &'p FlatCoreForm, situation: Situation) -> Result<(), NoMemory>
        requires { form_reads (view_form form.now) ≡ true → is_fed self.old ≡ true }
        ensures { OnOk result (RunsAs self.old self.new 0 (λ names s. begins s (view_form form.now) (at names self.old.machine situation))) }
    {
        match form {
            FlatCoreForm::Global(name) => self.named(Table::Globals, *name, situation),
            FlatCoreForm::Dynamic(name) => self.dynamic(*name, situation),
            FlatCoreForm::Call(name, list) => self.arguments(
                Operator::CallName(*name),
                list,
                0,
                situation,
            ),
            FlatCoreForm::CallValue(list) => self.arguments(
                Operator::CallFirst,
                list,
                0,
                situation,
            ),
            FlatCoreForm::Prim(which, list) => self.arguments(
                Operator::Compute(*which),
                list,
                0,
                situation,
            ),
            FlatCoreForm::NextMethod(place) => next_method_at(&mut self.machine, *place, situation),
            FlatCoreForm::Literal(_)
            | FlatCoreForm::Local(_)
            | FlatCoreForm::SetLocal(_, _)
            | FlatCoreForm::SetGlobal(_, _)
            | FlatCoreForm::DefGlobal(_, _)
            | FlatCoreForm::Clauses(_)
            | FlatCoreForm::Sequence(_)
            | FlatCoreForm::Let(_, _)
            | FlatCoreForm::MakeFunction(_, _)
            | FlatCoreForm::Apply(_, _)
            | FlatCoreForm::While(_, _)
            | FlatCoreForm::Block(_)
            | FlatCoreForm::Return(_, _)
            | FlatCoreForm::Tagbody(_)
            | FlatCoreForm::Go(_, _)
            | FlatCoreForm::Catch(_, _)
            | FlatCoreForm::Throw(_, _)
            | FlatCoreForm::Unwind(_, _)
            | FlatCoreForm::DynamicLet(_, _)
            | FlatCoreForm::SetDynamic(_, _)
            | FlatCoreForm::DefDynamic(_, _)
            | FlatCoreForm::WithHandler(_, _)
            | FlatCoreForm::Signal(_, _)
            | FlatCoreForm::Continue(_, _)
            | FlatCoreForm::HasNext(_)
            | FlatCoreForm::Sited(_, _) => { begin_kind(&mut self.machine, form, situation) }
        }
    }

    /// Arguments from one of them on, of which those in front are operands.
    pub fn arguments(
        &mut self,
        operation: Operator,
        list: &'p FlatCoreList,
        count: usize,
        situation: Situation,
    ) -> Result<(), NoMemory>
        requires { operation_reads operation (last_of count self.old.machine.operands.items) ≡ true → is_fed self.old ≡ true }
        ensures { OnOk result (RunsAs self.old self.new count (λ names s. arguments_step s (operation_of operation) (forms_from list.now count) (top names self.old.machine count) (at names self.old.machine situation))) }
    {
        match list.get(count) {
            Some(form) => self.machine.hold(
                ContinuationFrame::Argument(operation, list, count, situation),
                form,
                situation,
            ),
            None => self.operate(operation, count, situation),
        }
    }
}
