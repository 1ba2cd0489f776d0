// Whether the body of each procedure looks at the site.

ghost use Rattle.std.specs.Prelude.{◌≡◌, IfOk, map};
ghost use Rattle.flat_language.specs.declared.program.FlatProcedure.{FlatProcedure};
ghost use Rattle.back_lowering.specs.Sites.{asks_site};

use crate::sites::asks_site;
use back_calls::given::FlagList;
use base::NoMemory;
use flat_language::FlatProcedureList;
use std::alloc::Global;

// For each procedure, whether its body looks at the site.
pub(crate) fn asking_bodies(
    alloc: Global,
    procedures: &FlatProcedureList,
) -> Result<FlagList, NoMemory>
    ensures { IfOk result (λ flags. flags ≡ map (λ (q : FlatProcedure). asks_site q.body) procedures.now) }
{
    let mut flags = FlagList::new(alloc);
    for at in 0..procedures.len() {
        let Some(procedure) = procedures.get(at) else {
            unreachable!()
        };
        flags.push(asks_site(&procedure.body))?;
    }
    Ok(flags)
}
