// What a form sets and captures of what is around it, as a walk over it finds it (ISO/IEC 13816:2007, 12.7 and 14.2).

ghost use Rattle.std.specs.Prelude.{◌≡◌, ◌==◌, Bool, ℕ, false, OnOk, IfOk};
ghost use Rattle.std.specs.List.{list_any};
ghost use Rattle.lang_meaning.specs.declared.capture.Capture.TheVariants.{Variable as AVariable, Method as AMethod};
ghost use Rattle.lang_meaning.specs.Mentions.{same_part};
ghost use Rattle.flat_conversion.specs.Marks.{AreMarks, Adds, Forgets, IsUnion, is_set, is_captured, marked_binder, marked_variable};

use crate::variables::{Binder, NewVariable, NewVariables};
use base::NoMemory;
use flat_language::Home;
use lang_meaning::{Capture, CaptureList, Var, VarList};
use std::alloc::Global;
use std::collections::BTreeSet;
use std::mem;

/// The variables that are set, those that functions capture, and whether a function captures the method.
#[derive(Drop)]
pub(crate) struct Marks {
    pub(crate) set: BTreeSet<usize>,
    pub(crate) captured: BTreeSet<usize>,
    pub(crate) method: bool,
}

impl Marks {
    // Nothing is marked. Takes no memory.
    pub(crate) fn new(alloc: Global) -> Marks
        ensures { AreMarks result (λ v. false) (λ v. false) false }
    {
        Marks {
            set: BTreeSet::new(alloc),
            captured: BTreeSet::new(alloc),
            method: false,
        }
    }

    // A variable is set.
    pub(crate) fn set(&mut self, var: Var) -> Result<(), NoMemory>
        ensures { OnOk result (Adds self.old self.new (λ v. v == var) (λ v. false) false) }
    {
        self.set.insert(var)?;
        Ok(())
    }

    // A function captures these parts.
    pub(crate) fn capture(&mut self, parts: &CaptureList) -> Result<(), NoMemory>
        ensures { OnOk result (Adds self.old self.new (λ v. false) (λ v. list_any (same_part (AVariable v)) parts.now) (list_any (same_part AMethod) parts.now)) }
    {
        for at in 0..parts.len() {
            let Some(part) = parts.get(at) else {
                unreachable!()
            };
            self.capture_one(*part)?;
        }
        Ok(())
    }

    fn capture_one(&mut self, part: Capture) -> Result<(), NoMemory>
        ensures { OnOk result (Adds self.old self.new (λ v. false) (λ v. same_part (AVariable v) part) (same_part AMethod part)) }
    {
        match part {
            Capture::Variable(var) => {
                self.captured.insert(var)?;
                Ok(())
            }
            Capture::Exit(_) => Ok(()),
            Capture::Method => {
                self.method = true;
                Ok(())
            }
        }
    }

    // These variables are marked no more. Takes no memory.
    pub(crate) fn forget(&mut self, variables: &VarList)
        ensures { Forgets variables.now self.old self.new }
    {
        for at in 0..variables.len() {
            let Some(var) = variables.get(at) else {
                unreachable!()
            };
            self.set.remove(var);
            self.captured.remove(var);
        }
    }

    // The variables of a body with these marks.
    pub(crate) fn binder(&self, alloc: Global, variables: &VarList) -> Result<Binder, NoMemory>
        ensures { IfOk result (λ made. made ≡ marked_binder self.now variables.now) }
    {
        let mut news = NewVariables::new(alloc);
        for at in 0..variables.len() {
            let Some(var) = variables.get(at) else {
                unreachable!()
            };
            news.push(self.variable(*var))?;
        }
        Ok(Binder {
            variables: news,
            keeps_method: self.method,
        })
    }

    // A variable with these marks has a box where it is both set and captured.
    fn variable(&self, var: Var) -> NewVariable
        ensures { result ≡ marked_variable self.now var }
    {
        let is_set = self.set.contains(&var);
        let home = if self.captured.contains(&var) && is_set {
            Home::Boxed
        } else {
            Home::Slot
        };
        NewVariable {
            var,
            home,
            fixed: !is_set,
        }
    }

    // What is set inside is set here too.
    pub(crate) fn join_set(&mut self, inside: Marks) -> Result<(), NoMemory>
        ensures { OnOk result (Adds self.old self.new (is_set inside) (λ v. false) false) }
    {
        join(&mut self.set, inside.set)?;
        Ok(())
    }

    // What is marked inside is marked here too.
    pub(crate) fn join(&mut self, inside: Marks) -> Result<(), NoMemory>
        ensures { OnOk result (Adds self.old self.new (is_set inside) (is_captured inside) inside.method) }
    {
        join(&mut self.set, inside.set)?;
        join(&mut self.captured, inside.captured)?;
        self.method = self.method || inside.method;
        Ok(())
    }
}

// The smaller set is put into the larger one.
fn join(set: &mut BTreeSet<usize>, mut other: BTreeSet<usize>) -> Result<(), NoMemory>
    ensures { OnOk result (IsUnion set.old other set.new) }
{
    if set.len() < other.len() {
        mem::swap(set, &mut other);
    }
    set.append(&mut other)?;
    Ok(())
}
