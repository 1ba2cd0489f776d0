// What is bound around a form, the innermost last; what a name is bound to is found by a map (ISO/IEC 13816:2007, 11).

ghost use Rattle.std.specs.Prelude.{◌≡◌, ◌-◌, ◌≤◌, List, [], ◌++◌, length, take, OnOk, OnErr};
ghost use Rattle.front_profile.specs.Names.{variable_of, function_of, block_of, tag_of};
ghost use Rattle.front_context.specs.Spaces.{with_all};

use crate::spaces::{Spaces, bind_all};
use base::{NoMemory, Symbol};
use front_profile::{Bound, BoundList, Target};
use lang_meaning::{ExitVar, Var};
use std::alloc::Global;
use std::marker::Model;

/// What is bound. Contracts see it as the list of what is bound, the innermost last.
#[derive(Drop)]
pub struct Bindings {
    alloc: Global,
    bound: BoundList,
    spaces: Spaces,
}

impl Model for Bindings {
    ghost use Rattle.std.specs.Prelude.{◌≡◌, List};
    ghost use Rattle.front_profile.specs.declared.bound.Bound.{Bound as One};
    ghost use Rattle.front_context.specs.Spaces.{spaces_of};

    ghost Value = { List One };

    ghost view = { λ b. b.bound };

    ghost invariant = { λ b. b.spaces ≡ spaces_of b.bound };
}

impl Bindings {
    /// Nothing is bound. Takes no memory.
    pub fn new(alloc: Global) -> Bindings
        ensures { result ≡ [] }
    {
        Bindings {
            alloc,
            bound: BoundList::new(alloc),
            spaces: Spaces::new(alloc),
        }
    }

    /// How many things are bound.
    pub fn len(&self) -> usize
        ensures { result ≡ length self.now }
    {
        self.bound.len()
    }

    /// All that is bound.
    pub fn as_slice(&self) -> &[Bound]
        ensures { result.now ≡ self.now }
    {
        self.bound.as_slice()
    }

    /// These things are bound inside. After `NoMemory` nothing is bound.
    pub fn append_list(&mut self, more: BoundList) -> Result<(), NoMemory>
        ensures ok { OnOk result (self.new ≡ self.old ++ more) }
        ensures err { OnErr result (self.new ≡ []) }
    {
        match bind_both(&mut self.bound, &mut self.spaces, more) {
            Ok(()) => Ok(()),
            Err(stop) => {
                self.bound.cut(0);
                self.spaces = Spaces::new(self.alloc);
                Err(stop)
            }
        }
    }

    /// The first `len` things stay bound. Takes no memory.
    pub fn cut(&mut self, len: usize)
        requires { len ≤ length self.old }
        ensures { self.new ≡ take len self.old }
    {
        for _ in len..self.bound.len() {
            self.release_last();
        }
    }

    // The innermost thing is bound no more. Takes no memory.
    fn release_last(&mut self)
        requires { 1 ≤ length self.old }
        ensures { self.new ≡ take (length self.old - 1) self.old }
    {
        let last = self.bound.len() - 1;
        let Some(one) = self.bound.get(last) else {
            unreachable!()
        };
        self.spaces.release(one);
        self.bound.cut(last);
    }

    /// The variable that the symbol is, the innermost one (ISO/IEC 13816:2007, 14.2). Takes no memory.
    pub fn variable_of(&self, symbol: Symbol) -> Option<Var>
        ensures { result ≡ variable_of self.now symbol }
    {
        self.spaces.variable(symbol)
    }

    /// The variable whose value is the local function of that name, the innermost one (ISO/IEC 13816:2007, 12.7). Takes no memory.
    pub fn function_of(&self, symbol: Symbol) -> Option<Var>
        ensures { result ≡ function_of self.now symbol }
    {
        self.spaces.function(symbol)
    }

    /// The exit of the block of that name, the innermost one (ISO/IEC 13816:2007, 14.8.1). Takes no memory.
    pub fn block_of(&self, symbol: Symbol) -> Option<ExitVar>
        ensures { result ≡ block_of self.now symbol }
    {
        self.spaces.block(symbol)
    }

    /// Where that tag leads, the innermost one (ISO/IEC 13816:2007, 14.8.1). Takes no memory.
    pub fn tag_of(&self, symbol: Symbol) -> Option<Target>
        ensures { result ≡ tag_of self.now symbol }
    {
        self.spaces.tag(symbol)
    }
}

// These things come behind what is bound, and each symbol of them stands for it in its namespace.
fn bind_both(bound: &mut BoundList, spaces: &mut Spaces, more: BoundList) -> Result<(), NoMemory>
    ensures bound { OnOk result (bound.new ≡ bound.old ++ more) }
    ensures spaces { OnOk result (spaces.new ≡ with_all more spaces.old) }
{
    let Ok(()) = bind_all(spaces, more.as_slice()) else {
        drop(more);
        return Err(NoMemory);
    };
    bound.append_list(more)
}
