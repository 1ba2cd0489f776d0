// The row of a class, made of what stands above it and what is said of its slots.

ghost use Rattle.std.specs.Prelude.{◌≡◌, ◌++◌, ◌∷◌, IfOk};
ghost use Rattle.lang_classes.specs.InheritedSlots.{united};

use crate::line::append;
use crate::slots::{append_copies, slot_names, slots_of};
use base::{Name, NoMemory};
use lang_meaning::{ClassId, ClassIds, ClassRow, SlotRow, SlotRows};
use std::alloc::Global;

/// The row of a class under this name and number, where the classes above it say `inherited` of
/// slots, and the class itself `own`.
pub fn row_of(
    alloc: Global,
    name: Name,
    class: ClassId,
    above: &[ClassId],
    inherited: SlotRows,
    own: &[SlotRow],
    abstract_class: bool,
) -> Result<ClassRow, NoMemory>
    ensures { IfOk result (λ row. row ≡ record {
      name = name;
      precedence = class ∷ above.now;
      slots = united (inherited ++ own.now);
      abstract_class = abstract_class;
    }) }
{
    let precedence = line_of(alloc, class, above)?;
    let slots = united(alloc, inherited, own)?;
    Ok(ClassRow {
        name,
        precedence,
        slots,
        abstract_class,
    })
}

// The class, and then what stands above it.
fn line_of(alloc: Global, class: ClassId, above: &[ClassId]) -> Result<ClassIds, NoMemory>
    ensures { IfOk result (λ line. line ≡ class ∷ above.now) }
{
    let mut line = ClassIds::new(alloc);
    line.push(class)?;
    append(&mut line, above)?;
    Ok(line)
}

// The slots, by all that is said of them.
#[tactic(auto, unfolding(crate::specs::InheritedSlots::united))]
fn united(alloc: Global, inherited: SlotRows, own: &[SlotRow]) -> Result<SlotRows, NoMemory>
    ensures { IfOk result (λ slots. slots ≡ united (inherited ++ own.now)) }
{
    let mut said = inherited;
    append_copies(alloc, &mut said, own)?;
    let names = slot_names(alloc, said.as_slice())?;
    slots_of(alloc, said.as_slice(), names.as_slice())
}
