// The parts that forms mention of what is around them: variables, exits and the method part (ISO/IEC 13816:2007, 12.7).

ghost use Rattle.std.specs.Prelude.{◌≡◌, Bool, false, true, not, ◌&&◌, ◌||◌, OnOk};
ghost use Rattle.lang_meaning.specs.Mentions.{same_part, owns};
ghost use Rattle.front_elaboration.specs.Mentioned.{has, is_part, AreParts, IsUnion};

use base::NoMemory;
use lang_meaning::{Capture, Var};
use std::alloc::Global;
use std::collections::BTreeSet;
use std::mem;

/// Parts, each once.
#[derive(Drop)]
pub(crate) struct Mentioned {
    pub(crate) variables: BTreeSet<usize>,
    pub(crate) exits: BTreeSet<usize>,
    pub(crate) method: bool,
}

impl Mentioned {
    /// No parts. Takes no memory.
    pub(crate) fn new(alloc: Global) -> Mentioned
        ensures { AreParts result (λ p. false) }
    {
        Mentioned {
            variables: BTreeSet::new(alloc),
            exits: BTreeSet::new(alloc),
            method: false,
        }
    }

    /// Whether the part is among them. Takes no memory.
    pub(crate) fn has(&self, part: Capture) -> bool
        ensures { result ≡ has self.now part }
    {
        match part {
            Capture::Variable(var) => self.variables.contains(&var),
            Capture::Exit(exit) => self.exits.contains(&exit),
            Capture::Method => self.method,
        }
    }

    /// Whether there are none. Takes no memory.
    pub(crate) fn is_empty(&self) -> bool
        ensures { result ≡ true → AreParts self.now (λ p. false) }
    {
        self.variables.is_empty() && self.exits.is_empty() && !self.method
    }

    /// The part is one of them.
    pub(crate) fn add(&mut self, part: Capture) -> Result<(), NoMemory>
        ensures { OnOk result (AreParts self.new (λ p. has self.old p || same_part p part)) }
    {
        match part {
            Capture::Variable(var) => {
                self.variables.insert(var)?;
                Ok(())
            }
            Capture::Exit(exit) => {
                self.exits.insert(exit)?;
                Ok(())
            }
            Capture::Method => {
                self.method = true;
                Ok(())
            }
        }
    }

    /// The part is one of them, if there is one.
    pub(crate) fn add_some(&mut self, part: Option<Capture>) -> Result<(), NoMemory>
        ensures { OnOk result (AreParts self.new (λ p. has self.old p || is_part p part)) }
    {
        match part {
            None => Ok(()),
            Some(part) => self.add(part),
        }
    }

    /// The part is none of them. Takes no memory.
    pub(crate) fn remove(&mut self, part: Capture)
        ensures { AreParts self.new (λ p. not (same_part p part) && has self.old p) }
    {
        match part {
            Capture::Variable(var) => {
                self.variables.remove(&var);
            }
            Capture::Exit(exit) => {
                self.exits.remove(&exit);
            }
            Capture::Method => self.method = false,
        }
    }

    /// These variables are none of them. Takes no memory.
    pub(crate) fn remove_variables(&mut self, variables: &[Var])
        ensures { AreParts self.new (λ p. not (owns variables.now p) && has self.old p) }
    {
        for var in variables {
            self.remove(Capture::Variable(*var));
        }
    }

    /// Those of the other are among them.
    pub(crate) fn join(&mut self, other: Mentioned) -> Result<(), NoMemory>
        ensures { OnOk result (AreParts self.new (λ p. has self.old p || has other p)) }
    {
        join(&mut self.variables, other.variables)?;
        join(&mut self.exits, other.exits)?;
        self.method = self.method || other.method;
        Ok(())
    }

    /// None are left. Takes no memory.
    pub(crate) fn clear(&mut self)
        ensures { AreParts self.new (λ p. false) }
    {
        self.variables.clear();
        self.exits.clear();
        self.method = false;
    }
}

// The smaller set is put into the larger one.
fn join(set: &mut BTreeSet<usize>, mut other: BTreeSet<usize>) -> Result<(), NoMemory>
    ensures { OnOk result (IsUnion set.old other set.new) }
{
    if set.len() < other.len() {
        mem::swap(set, &mut other);
    }
    set.append(&mut other)?;
    Ok(())
}
