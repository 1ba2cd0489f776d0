// The procedures of primitives, in the order of their numbers.

ghost use Rattle.std.specs.Prelude.{◌≡◌, ◌++◌, OnOk};
ghost use Rattle.back_lowering.specs.Program as lowering;
ghost use Rattle.back_programs.specs.Parts as parts;

use back_calls::Given;
use base::NoMemory;
use lang_meaning::Primitive;
use mid_arena::primitive;
use mid_code::ProcedureList;
use std::alloc::Global;

/// All primitives, each at its number.
pub const PRIMITIVES: &[Primitive] = &[
    Primitive::Add,
    Primitive::Subtract,
    Primitive::Multiply,
    Primitive::Divide,
    Primitive::Modulo,
    Primitive::NumberEqual,
    Primitive::NumberNotEqual,
    Primitive::NumberLess,
    Primitive::NumberAtMost,
    Primitive::NumberGreater,
    Primitive::NumberAtLeast,
    Primitive::Same,
    Primitive::IsNull,
    Primitive::IsCons,
    Primitive::IsInteger,
    Primitive::IsSymbol,
    Primitive::IsCharacter,
    Primitive::IsString,
    Primitive::IsVector,
    Primitive::IsFunction,
    Primitive::IsGeneric,
    Primitive::Cons,
    Primitive::Car,
    Primitive::Cdr,
    Primitive::SetCar,
    Primitive::SetCdr,
    Primitive::MakeString,
    Primitive::MakeVector,
    Primitive::StringLength,
    Primitive::VectorLength,
    Primitive::CharAt,
    Primitive::VectorRef,
    Primitive::SetCharAt,
    Primitive::SetVectorRef,
    Primitive::CharCode,
    Primitive::CodeChar,
    Primitive::SymbolName,
    Primitive::SymbolSerial,
    Primitive::Gensym,
    Primitive::ClassOf,
    Primitive::ClassName,
    Primitive::IsSubclass,
    Primitive::IsInstance,
    Primitive::Allocate,
    Primitive::SlotCount,
    Primitive::SlotPlace,
    Primitive::SlotRef,
    Primitive::SlotSet,
    Primitive::SlotBound,
    Primitive::SlotInitargs,
    Primitive::SlotInitform,
    Primitive::Continuable,
    Primitive::StandardInput,
    Primitive::StandardOutput,
    Primitive::PutChar,
    Primitive::IsFreshLine,
    Primitive::GetByte,
    Primitive::PeekByte,
];

// The procedures of some primitives.
fn written(list: &mut ProcedureList, alloc: Global, which: &[Primitive]) -> Result<(), NoMemory>
    ensures { OnOk result (list.new ≡ list.old ++ parts.written which.now) }
{
    for primitive_here in which {
        list.push(primitive(alloc, *primitive_here)?)?;
    }
    Ok(())
}

// The procedures of all primitives.
pub(crate) fn primitives(
    list: &mut ProcedureList,
    alloc: Global,
    given: &Given,
) -> Result<(), NoMemory>
    ensures { OnOk result (list.new ≡ list.old ++ lowering.primitives given.now.names.now given.now.at.now given.now.program.now) }
{
    written(list, alloc, PRIMITIVES)
}
