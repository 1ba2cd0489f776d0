// Which procedures are methods: the generic functions are gone through once, and each method of theirs is marked.

ghost use Rattle.std.specs.Prelude.{◌≡◌, IfOk, map};
ghost use Rattle.lang_meaning.specs.declared.program.MethodRow.{MethodRow};
ghost use Rattle.lang_rows.specs.Marked.{AreMarked, AreFlags, methods_of};

use back_calls::given::FlagList;
use base::NoMemory;
use lang_meaning::{GenericRows, MethodRows};
use lang_rows::flags::{mark, no_flags};
use std::alloc::Global;

// For each of so many procedures, whether it is a method.
#[tactic(auto, using(lang_rows::proofs::Marking::no_generic_yet))]
pub(crate) fn method_flags(
    alloc: Global,
    count: usize,
    generics: &GenericRows,
) -> Result<FlagList, NoMemory>
    ensures { IfOk result (λ flags. AreFlags count (methods_of generics.now) flags) }
{
    let mut flags = no_flags(alloc, count)?;
    for at in (0..generics.len()).rev() {
        let Some(generic) = generics.get(at) else {
            unreachable!()
        };
        mark_methods(&mut flags, &generic.methods);
    }
    Ok(flags)
}

// The procedures of these methods are marked.
#[tactic(auto, using(lang_rows::proofs::Marking::no_method_yet))]
fn mark_methods(flags: &mut FlagList, methods: &MethodRows)
    ensures { AreMarked flags.old (map (λ (m : MethodRow). m.procedure) methods.now) flags.new }
{
    for at in (0..methods.len()).rev() {
        let Some(method) = methods.get(at) else {
            unreachable!()
        };
        mark(flags, method.procedure);
    }
}
