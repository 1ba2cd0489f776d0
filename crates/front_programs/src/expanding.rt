// What expands calls of macros.

ghost use Rattle.std.specs.Prelude.{◌≡◌, length, IfOk, IfErr};
ghost use Rattle.base.specs.Data.{place_of};
ghost use Rattle.front_programs.specs.Calls.{IsCall, CallExpands, CallStops};

use base::{Datum, Names, Reason, Refusal, Stop};
use front_profile::Tables;
use std::alloc::Global;

/// A call of a macro, which is that of this number, beside these tables; and the number of its expansion, from 1.
#[derive(Drop)]
pub struct MacroCall<'a> {
    pub tables: &'a Tables,
    pub macro_number: usize,
    pub datum: &'a Datum,
    pub number: u32,
}

/// A refusal at that datum, for that reason.
pub fn refused(datum: &Datum, reason: Reason) -> Stop
    ensures { result ≡ Stop.Refused (record { place = place_of datum.now; reason = reason }) }
{
    Stop::Refused(Refusal {
        place: datum.place,
        reason,
    })
}

/// What expands calls of macros (ISO/IEC 13816:2007, 16).
pub trait Expanding {
    /// The datum that the call stands for: what the value of the macro's expander stands for, all its parts at the place of
    /// the call. Refused there: `ExpanderUnhandled` and `ExpanderPrinted` by the end of the expander, `ExpanderArena` and
    /// `ExpanderBudget` for want of words or of instructions, `ExpansionNotForm` and `ExpansionTooLarge` by its value.
    /// Condition: the macro was defined before the top-level form, and the call is in form with its names in the table.
    fn expand(&mut self, alloc: Global, names: &Names, call: &MacroCall<'_>) -> Result<Datum, Stop>
        requires ready { IsCall (length names.now) call.now }
        ensures expands { IfOk result (CallExpands names.now call.now) }
        ensures stops { IfErr result (CallStops names.now call.now) };
}

/// What expands no call: it answers want of memory.
#[derive(Clone, Copy, Debug, Drop)]
pub struct NoExpander;

impl Expanding for NoExpander {
    fn expand(
        &mut self,
        _alloc: Global,
        _names: &Names,
        _call: &MacroCall<'_>,
    ) -> Result<Datum, Stop> {
        Err(Stop::NoMemory)
    }
}
