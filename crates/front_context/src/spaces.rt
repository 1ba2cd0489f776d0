// The namespaces: what symbols stand for as variables, as local functions, as blocks and as tags.

ghost use Rattle.std.specs.Prelude.{◌≡◌, ◌++◌, length, OnOk};
ghost use Rattle.front_context.specs.Spaces.{Spaces as Lists, under, no_names, with_one, with_all, targets};

use base::{NameMap, NoMemory, Symbol};
use front_profile::{Bound, Target};
use lang_meaning::{ExitVar, Var};
use std::alloc::Global;
use std::marker::Model;

/// What symbols stand for in each namespace.
#[derive(Drop)]
pub(crate) struct Spaces {
    variables: NameMap<Symbol, Var>,
    functions: NameMap<Symbol, Var>,
    blocks: NameMap<Symbol, ExitVar>,
    tags: NameMap<Symbol, Target>,
}

impl Model for Spaces {
    ghost use Rattle.front_context.specs.Spaces.{Spaces as Lists};

    ghost Value = { Lists };

    ghost view = { λ s. record { variables = s.variables; functions = s.functions; blocks = s.blocks; tags = s.tags } };
}

impl Spaces {
    /// No symbol stands for anything. Takes no memory.
    pub(crate) fn new(alloc: Global) -> Spaces
        ensures { result ≡ no_names }
    {
        Spaces {
            variables: NameMap::new(alloc),
            functions: NameMap::new(alloc),
            blocks: NameMap::new(alloc),
            tags: NameMap::new(alloc),
        }
    }

    /// One thing more is bound. After `NoMemory` some of its symbols may be.
    pub(crate) fn bind(&mut self, one: &Bound) -> Result<(), NoMemory>
        ensures { OnOk result (self.new ≡ with_one one.now self.old) }
    {
        match one {
            Bound::Variable(symbol, var) => self.variables.bind(*symbol, *var),
            Bound::Function(symbol, var) => self.functions.bind(*symbol, *var),
            Bound::Block(symbol, exit) => self.blocks.bind(*symbol, *exit),
            Bound::Tags(tags, exit) => bind_tags(&mut self.tags, tags.as_slice(), *exit),
        }
    }
}

/// These things are bound, one after another. After `NoMemory` some of their symbols may be.
pub(crate) fn bind_all(spaces: &mut Spaces, more: &[Bound]) -> Result<(), NoMemory>
    ensures { OnOk result (spaces.new ≡ with_all more.now spaces.old) }
{
    for one in more {
        spaces.bind(one)?;
    }
    Ok(())
}

// Tags with the segments behind them; the first of a name is the one that counts.
fn bind_tags(
    names: &mut NameMap<Symbol, Target>,
    tags: &[Symbol],
    exit: ExitVar,
) -> Result<(), NoMemory>
    ensures { OnOk result (names.new ≡ targets exit 1 tags.now ++ names.old) }
{
    for later in 0..tags.len() {
        let segment = tags.len() - later;
        names.bind(tags[segment - 1], Target { exit, segment })?;
    }
    Ok(())
}

impl Spaces {
    /// The thing that was bound last is bound no more. Takes no memory.
    pub(crate) fn release(&mut self, one: &Bound)
        ghost before: { Lists }
        requires { self.old ≡ with_one one.now before }
        ensures { self.new ≡ before }
    {
        match one {
            Bound::Variable(_, _) => self.variables.release(1),
            Bound::Function(_, _) => self.functions.release(1),
            Bound::Block(_, _) => self.blocks.release(1),
            Bound::Tags(tags, _) => self.tags.release(tags.len()),
        }
    }
}

impl Spaces {
    /// The variable that the symbol is. Takes no memory.
    pub(crate) fn variable(&self, symbol: Symbol) -> Option<Var>
        ensures { result ≡ under symbol self.now.variables }
    {
        self.variables.find(symbol)
    }

    /// The variable whose value is the local function of that name. Takes no memory.
    pub(crate) fn function(&self, symbol: Symbol) -> Option<Var>
        ensures { result ≡ under symbol self.now.functions }
    {
        self.functions.find(symbol)
    }

    /// The exit of the block of that name. Takes no memory.
    pub(crate) fn block(&self, symbol: Symbol) -> Option<ExitVar>
        ensures { result ≡ under symbol self.now.blocks }
    {
        self.blocks.find(symbol)
    }

    /// Where that tag leads. Takes no memory.
    pub(crate) fn tag(&self, symbol: Symbol) -> Option<Target>
        ensures { result ≡ under symbol self.now.tags }
    {
        self.tags.find(symbol)
    }
}
