// Forms that are taken from the front.

ghost use Rattle.std.specs.Prelude.{◌≡◌, List, [], ◌∷◌, take, drop, IfOk, OnOk, MatchOption};

use base::NoMemory;
use lang_meaning::{Core, CoreForm, CoreList};
use std::alloc::Global;
use std::marker::Model;

/// Forms in order, of which the first is taken first.
#[derive(Drop)]
pub(crate) struct FormQueue {
    forms: CoreList,
    taken: usize,
}

impl Model for FormQueue {
    ghost use Rattle.std.specs.Prelude.{List};
    ghost use Rattle.lang_meaning.specs.Form.{Form};

    ghost Value = { List Form };

    ghost use Rattle.std.specs.Coded.{coded_list};
    ghost use Rattle.lang_meaning.specs.model.FormCode.{form_code};

    ghost coded = { coded_list form_code };

    ghost use Rattle.std.specs.Prelude.{drop};

    ghost view = { λ q. drop q.taken q.forms };
}

impl FormQueue {
    /// All these forms.
    pub(crate) fn new(forms: CoreList) -> FormQueue
        ensures { result ≡ forms }
    {
        FormQueue { forms, taken: 0 }
    }

    /// The first form, where there is one; takes no memory.
    pub(crate) fn take(&mut self) -> Option<Core>
        ensures { MatchOption result ((self.old ≡ []) × (self.new ≡ [])) (λ form. self.old ≡ form ∷ self.new) }
    {
        if self.taken >= self.forms.len() {
            return None;
        }
        let form = self
            .forms
            .replace(self.taken, Core::new(CoreForm::NextMethod));
        self.taken += 1;
        Some(form)
    }

    /// So many forms, or all where there are fewer.
    #[tactic(auto, using(crate::proofs::MakingLists::take_goes_on, crate::proofs::MakingLists::drop_goes_on, crate::proofs::MakingLists::take_of_none, crate::proofs::MakingLists::drop_of_none))]
    pub(crate) fn take_some(&mut self, alloc: Global, count: usize) -> Result<CoreList, NoMemory>
        ensures list { IfOk result (λ list. list ≡ take count self.old) }
        ensures rest { OnOk result (self.new ≡ drop count self.old) }
    {
        let mut forms = CoreList::new(alloc);
        let mut left = count;
        while left > 0 {
            let Some(form) = self.take() else {
                return Ok(forms);
            };
            forms.push(form)?;
            left -= 1;
        }
        Ok(forms)
    }

    /// All forms.
    #[tactic(auto, using(crate::proofs::MakingLists::all_behind))]
    pub(crate) fn rest(mut self, alloc: Global) -> Result<CoreList, NoMemory>
        ensures { IfOk result (λ list. list ≡ self) }
    {
        let count = self.forms.len();
        self.take_some(alloc, count)
    }
}
