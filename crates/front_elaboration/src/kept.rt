// Core forms with what they mention of what is around them, and what was found of the parts of a form with what that mentions:
// so what a function captures is known without a walk over its body.

ghost use Rattle.std.specs.Prelude.{◌≡◌, Bool, false, [], ◌∷◌, ◌++◌, ◌||◌, IfOk, OnOk, OnErr};
ghost use Rattle.lang_meaning.specs.Mentions.{mentions};
ghost use Rattle.front_profile.specs.declared.elaboration.ElaboratedPart.TheVariants.{Value, Binding, Parameter};
ghost use Rattle.front_profile.specs.Elaborations.{at_site};
ghost use Rattle.front_elaboration.specs.Mentioned.{has, AreParts};

use crate::mentioned::Mentioned;
use base::NoMemory;
use front_profile::{ElaboratedPart, ElaboratedParts};
use lang_meaning::{Core, SiteId, Var};
use std::alloc::Global;
use std::marker::Model;

/// A core form. Contracts see the form; what it mentions is kept beside it.
#[derive(Drop)]
pub struct Formed {
    core: Core,
    mentioned: Mentioned,
}

impl Model for Formed {
    ghost use Rattle.lang_meaning.specs.Form.{Form};

    ghost Value = { Form };

    ghost use Rattle.lang_meaning.specs.model.FormCode.{form_code};

    ghost coded = { form_code };

    ghost use Rattle.lang_meaning.specs.Mentions.{mentions};
    ghost use Rattle.front_elaboration.specs.Mentioned.{AreParts};

    ghost view = { λ f. f.core };

    ghost invariant = { λ f. AreParts f.mentioned (λ p. mentions p f.core) };
}

impl Formed {
    /// The form, at its site where it has one, which mentions those.
    pub(crate) fn new(
        alloc: Global,
        site: Option<SiteId>,
        core: Core,
        mentioned: Mentioned,
    ) -> Result<Formed, NoMemory>
        requires { AreParts mentioned (λ p. mentions p core) }
        ensures { IfOk result (λ form. form ≡ at_site site core) }
    {
        let core = at_site(alloc, site, core)?;
        Ok(Formed { core, mentioned })
    }

    /// The core form alone.
    pub fn into_core(self) -> Core
        ensures { result ≡ self }
    {
        self.core
    }
}

// The form at its site, where it has one.
fn at_site(alloc: Global, site: Option<SiteId>, form: Core) -> Result<Core, NoMemory>
    ensures { IfOk result (λ core. core ≡ at_site site form) }
{
    match site {
        None => Ok(form),
        Some(site) => Core::sited(alloc, site, form),
    }
}

/// What was found of the parts of a form, in their order. Contracts see the list of it.
#[derive(Drop)]
pub struct FoundParts {
    pub(crate) found: ElaboratedParts,
    pub(crate) values: Mentioned,
    pub(crate) bindings: Mentioned,
}

impl Model for FoundParts {
    ghost use Rattle.std.specs.Prelude.{List};
    ghost use Rattle.front_profile.specs.declared.elaboration.ElaboratedPart.{ElaboratedPart};

    ghost Value = { List ElaboratedPart };

    ghost use Rattle.lang_meaning.specs.contracts.core_form.Core as core;
    ghost use Rattle.std.specs.Coded.{codes};

    ghost coded = { Prim.hlevel (codes, core.the_row.coded) };

    ghost use Rattle.front_elaboration.specs.Kept.{AreFoundParts};

    ghost view = { λ k. k.found };

    ghost invariant = { λ k. AreFoundParts k.found k.values k.bindings };
}

// A part is put behind the others, and what it mentions to what they mention.
fn push(
    found: &mut ElaboratedParts,
    all: &mut Mentioned,
    part: ElaboratedPart,
    mentioned: Mentioned,
) -> Result<(), NoMemory>
    ensures found { OnOk result (found.new ≡ found.old ++ part ∷ []) }
    ensures all { OnOk result (AreParts all.new (λ p. has all.old p || has mentioned p)) }
{
    let Ok(()) = all.join(mentioned) else {
        drop(part);
        return Err(NoMemory);
    };
    found.push(part)
}

// Nothing is kept any more. Takes no memory.
fn forget(found: &mut ElaboratedParts, values: &mut Mentioned, bindings: &mut Mentioned)
    ensures found { found.new ≡ [] }
    ensures values { AreParts values.new (λ p. false) }
    ensures bindings { AreParts bindings.new (λ p. false) }
{
    found.cut(0);
    values.clear();
    bindings.clear();
}

impl FoundParts {
    /// Nothing. Takes no memory.
    pub fn new(alloc: Global) -> FoundParts
        ensures { result ≡ [] }
    {
        FoundParts {
            found: ElaboratedParts::new(alloc),
            values: Mentioned::new(alloc),
            bindings: Mentioned::new(alloc),
        }
    }

    /// A form's value behind the others. After `NoMemory` nothing is kept.
    pub fn push_value(&mut self, form: Formed) -> Result<(), NoMemory>
        ensures ok { OnOk result (self.new ≡ self.old ++ Value form ∷ []) }
        ensures err { OnErr result (self.new ≡ []) }
    {
        let Formed { core, mentioned } = form;
        match push(
            &mut self.found,
            &mut self.values,
            ElaboratedPart::Value(core),
            mentioned,
        ) {
            Ok(()) => Ok(()),
            Err(_) => {
                forget(&mut self.found, &mut self.values, &mut self.bindings);
                Err(NoMemory)
            }
        }
    }

    /// A variable with its value behind the others. After `NoMemory` nothing is kept.
    pub fn push_binding(&mut self, var: Var, form: Formed) -> Result<(), NoMemory>
        ensures ok { OnOk result (self.new ≡ self.old ++ Binding var form ∷ []) }
        ensures err { OnErr result (self.new ≡ []) }
    {
        let Formed { core, mentioned } = form;
        let part = ElaboratedPart::Binding(var, core);
        match push(&mut self.found, &mut self.bindings, part, mentioned) {
            Ok(()) => Ok(()),
            Err(_) => {
                forget(&mut self.found, &mut self.values, &mut self.bindings);
                Err(NoMemory)
            }
        }
    }

    /// A parameter behind the others. After `NoMemory` they are as before.
    pub fn push_parameter(&mut self, var: Var) -> Result<(), NoMemory>
        ensures ok { OnOk result (self.new ≡ self.old ++ Parameter var ∷ []) }
        ensures err { OnErr result (self.new ≡ self.old) }
    {
        self.found.push(ElaboratedPart::Parameter(var))
    }

    /// The list of it alone.
    pub(crate) fn into_found(self) -> ElaboratedParts
        ensures { result ≡ self }
    {
        self.found
    }
}
