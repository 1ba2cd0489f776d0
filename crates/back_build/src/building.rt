// A whole program compiled to an image.

ghost use Rattle.std.specs.Prelude.{◌≡◌, ◌≤◌, ◌↔◌, true, length, IsTrue, IfOk, IfErr};
ghost use Rattle.lang_meaning.specs.declared.program.ProgramRows.{ProgramRows as program_rows};
ghost use Rattle.lang_meaning.specs.Facts.{is_whole};
ghost use Rattle.flat_language.specs.Flatten.{flat_program};
ghost use Rattle.mid_start.specs.Rows.{RowsFit};
ghost use Rattle.back_words.specs.Asked.{NamesAsked};
ghost use Rattle.back_build.specs.Compiled.{IsMade};
ghost use Rattle.back_build.specs.Faults.{Fails, FailsFlat, FailsLowered, FailsReached};
ghost use Rattle.back_build.specs.Means.{IsBuilt};
ghost use Rattle.back_build.specs.Reached.{IsSized, OfReached};

use crate::boxes::boxes_are_captured;
use crate::faults::BuildFault;
use crate::laws::{law_built, law_built_size, law_left};
use crate::names_there::{are_names_there, name_of_true};
use back_lowered::{LoweredProgram, lower};
use back_program_code::emit;
use back_tables::tables_of;
use back_uses::{are_in_table, used_names};
use base::{ItemList, Name, Names, NoMemory};
use flat_conversion::flatten;
use flat_language::FlatProgram;
use lang_meaning::Program;
use lang_reached::keep_reached;
use mid_code::MidProgram;
use mid_start::{SymbolWord, law_whole_rows};
use rv_machine::Image;
use std::alloc::Global;

/// An image, and the symbols that are laid in it, each with its word.
#[derive(Drop)]
pub struct Built {
    pub image: Image,
    pub symbols: ItemList<SymbolWord>,
}

/// The image of a program with these names, and the symbols that are laid in it: in every arena that has room for it,
/// it does what the program means. What the main forms do not reach is left out: the image has at most so many words
/// by the nodes of what is left, and so by those of the program, and it is of what is left that one of these holds
/// where there is no image. `TooLarge`: a part of the words laid beside the code is too large, or the image would
/// have 2^24 words or more. `FrameTooSmall`: a frame of the lowered program has not a word for each register.
/// `NotInForm`: a name is not in the table, has the text of nil, or none has that of t; more variables have boxes
/// than functions capture; or the lowered code is not in form.
pub fn build(alloc: Global, program: &Program, names: &Names) -> Result<Built, BuildFault>
    ensures image { IfOk result (λ built. IsBuilt names.now program.now built.symbols built.image) }
    ensures size { IfOk result (λ built. IsSized built.image program.now) }
    ensures reached_size { IfOk result (λ built. OfReached names.now program.now (IsSized built.image)) }
    ensures fault { IfErr result (λ e. FailsReached names.now program.now e) }
{
    law_left();
    let left = keep_reached(alloc, names, program)?;
    let built = build_whole(alloc, names, &left);
    drop(left);
    built
}

// The image of a program, of which nothing is left out.
fn build_whole(alloc: Global, names: &Names, program: &Program) -> Result<Built, BuildFault>
    ensures image { IfOk result (λ built. IsBuilt names.now program.now built.symbols built.image) }
    ensures size { IfOk result (λ built. IsSized built.image program.now) }
    ensures fault { IfErr result (λ e. Fails names.now program.now e) }
{
    law_whole_rows();
    let rows = program.rows();
    let Some(true_name) = name_of_true(names) else {
        return Err(BuildFault::NotInForm);
    };
    let are = are_names_there(names, true_name, rows)?;
    if !are {
        return Err(BuildFault::NotInForm);
    }
    let flat = flatten(alloc, program)?;
    let built = build_flat(alloc, names, true_name, &flat);
    drop(flat);
    built
}

// The image of a program that was made flat.
fn build_flat(
    alloc: Global,
    names: &Names,
    true_name: Name,
    flat: &FlatProgram,
) -> Result<Built, BuildFault>
    requires { RowsFit names.now true_name flat.now.classes flat.now.functions flat.now.literals }
    ensures image { IfOk result (λ built. (program : program_rows) → is_whole program ≡ true → flat.now ≡ flat_program program
        → IsBuilt names.now program built.symbols built.image) }
    ensures size { IfOk result (λ built. (program : program_rows) → is_whole program ≡ true → flat.now ≡ flat_program program → IsSized built.image program) }
    ensures fault { IfErr result (λ e. FailsFlat names.now flat.now e) }
{
    law_built();
    law_built_size();
    let _count = names.len();
    let captured = boxes_are_captured(flat)?;
    if !captured {
        return Err(BuildFault::NotInForm);
    }
    let asked = are_names_asked(alloc, names, flat)?;
    if !asked {
        return Err(BuildFault::NotInForm);
    }
    let lowered = lower(alloc, names, true_name, flat)?;
    image_of(alloc, lowered)
}

// Whether the names that forms use are in the table.
fn are_names_asked(alloc: Global, names: &Names, flat: &FlatProgram) -> Result<bool, NoMemory>
    ensures { IfOk result (λ are. IsTrue are ↔ NamesAsked names.now flat.now) }
{
    let tables = tables_of(alloc, names, flat)?;
    let used = used_names(alloc, names, flat, &tables.rows, tables.unnamed)?;
    Ok(are_in_table(names, &used))
}

// The image of a program that was lowered; its start is the last of its procedures.
fn image_of(alloc: Global, lowered: LoweredProgram) -> Result<Built, BuildFault>
    requires { 1 ≤ length lowered.procedures }
    ensures image { IfOk result (λ built. IsMade lowered built) }
    ensures fault { IfErr result (λ e. FailsLowered lowered e) }
{
    let LoweredProgram { procedures, words } = lowered;
    let data = words.data;
    let arena = data.arena;
    let laid = arena.words;
    let symbols = arena.symbols.into_list();
    let program = MidProgram { procedures, laid };
    let count = program.procedures.len();
    if !program.check() {
        return Err(BuildFault::NotInForm);
    }
    let image = emit(alloc, &program, count - 1)?;
    Ok(Built { image, symbols })
}
