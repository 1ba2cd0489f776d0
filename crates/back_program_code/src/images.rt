// The image of a program.

ghost use Rattle.std.specs.Prelude.{◌≡◌, ◌+◌, ◌*◌, ◌^◌, ◌<◌, ◌++◌, true, length, map, replicate, ◌≤◌, false, IfOk, IfErr, OnOk};
ghost use Rattle.mid_code.specs.Checked.{is_checked_program};
ghost use Rattle.rv_encode.specs.Encodes.{word_of};
ghost use Rattle.back_places.specs.Selection.{far_jump_code};
ghost use Rattle.back_places.specs.Blocks.{end_code, full_code};
ghost use Rattle.back_program_code.specs.Shapes.{first_position, AreLow, chosen_in};
ghost use Rattle.back_program_code.specs.ShapedImage.{front_words, shaped_image};
ghost use Rattle.back_emit.specs.declared.errors.EmitError.TheVariants.{TooLarge};
ghost use Rattle.back_trivial.specs.FrameFound.{finds_frames};
ghost use Rattle.back_images.specs.Laws.{LaidAreWords};
ghost use Rattle.back_program_code.specs.declared.errors.ImageError.TheVariants as image;
ghost use Rattle.back_program_code.specs.TooLarge.{IsTooLarge};
ghost use Rattle.back_program_code.specs.Made.{IsPlan, IsImageOf};

use crate::errors::ImageError;
use crate::front::Front;
use crate::plans::{Plan, plan_of};
use crate::words::{put_encoded, put_shapes};
use back_emit::blocks::{put_end, put_full};
use back_emit::placing::{EntryList, entry_position};
use back_emit::selection::put_far_jump;
use back_emit::{CodeList, EmitError};
use base::{NoMemory, WordList};
use mid_code::MidProgram;
use rv_machine::Image;
use std::alloc::Global;

/// Appends all words of a list.
pub fn put_copied(words: &mut WordList, more: &WordList) -> Result<(), NoMemory>
    ensures { OnOk result (words.new ≡ words.old ++ more.now) }
{
    for word in more.as_slice() {
        words.push(*word)?;
    }
    Ok(())
}

/// Appends so many zeros.
pub fn put_zeros(words: &mut WordList, count: u32) -> Result<(), NoMemory>
    ensures { OnOk result (words.new ≡ words.old ++ replicate count 0) }
{
    for _zero in 0..count {
        words.push(0)?;
    }
    Ok(())
}

/// Appends the table of procedures: the addresses of their entries.
pub fn put_addresses(words: &mut WordList, entries: &EntryList) -> Result<(), NoMemory>
    requires { AreLow entries.now }
    ensures { OnOk result (words.new ≡ words.old ++ map (λ at. 4 * at) entries.now) }
{
    for number in 0..entries.len() {
        words.push(4 * entry_position(entries, number))?;
    }
    Ok(())
}

/// Appends the jump to the procedure in which a run begins, the code that ends a run, and that for want of words.
pub fn put_start(alloc: Global, words: &mut WordList, front: Front, at: u32) -> Result<(), NoMemory>
    requires { (first_position front < 2 ^ 24) × (at < 2 ^ 24) }
    ensures { OnOk result (words.new ≡ words.old ++ (map word_of (far_jump_code 1 front.start_at at) ++ (map word_of end_code ++ map word_of full_code))) }
{
    let mut code = CodeList::new(alloc);
    put_far_jump(&mut code, 1, front.start_at, at)?;
    put_encoded(words, &code)?;
    code.cut(0);
    put_end(&mut code)?;
    put_encoded(words, &code)?;
    code.cut(0);
    put_full(&mut code)?;
    put_encoded(words, &code)
}

/// Appends what stands in front of all procedures.
pub fn put_front(
    alloc: Global,
    words: &mut WordList,
    laid: &WordList,
    front: Front,
    entries: &EntryList,
    entry: usize,
) -> Result<(), NoMemory>
    requires { (first_position front < 2 ^ 24) × AreLow entries.now }
    ensures { OnOk result (words.new ≡ words.old ++ front_words laid.now front entries.now entry) }
{
    put_copied(words, laid)?;
    put_zeros(words, front.argument_words)?;
    put_addresses(words, entries)?;
    put_start(alloc, words, front, entry_position(entries, entry))
}

/// The words of a program's image, from what was found of it.
pub fn words_of(
    alloc: Global,
    program: &MidProgram,
    plan: &Plan,
    entry: usize,
) -> Result<WordList, EmitError>
    requires { IsPlan program.now (chosen_in plan.now.shapes) plan.now }
    ensures ok { IfOk result (λ words. words ≡ shaped_image program.now (chosen_in plan.now.shapes) entry) }
    ensures err { IfErr result (λ e. e ≡ TooLarge → 2 ^ 24 ≤ length (shaped_image program.now (chosen_in plan.now.shapes) entry)) }
{
    let mut words = WordList::new(alloc);
    put_front(
        alloc,
        &mut words,
        &program.laid,
        plan.front,
        &plan.entries,
        entry,
    )?;
    put_shapes(
        alloc,
        &mut words,
        plan.front,
        &plan.entries,
        &plan.nears,
        &plan.lefts,
        &plan.shapes,
    )?;
    Ok(words)
}

/// The image of a program, which begins with a jump to one of its procedures, with places that are chosen for registers by the linear scan.
/// `FrameNotFound`: at some line the frame is not found. `TooLarge`: with all jumps far the image would have 2^24 words or more, or records have
/// 2^29 words or more, one inside the other.
pub fn emit(alloc: Global, program: &MidProgram, entry: usize) -> Result<Image, ImageError>
    requires { (is_checked_program program.now ≡ true) × (entry < length program.now.procedures) }
    ensures ok { IfOk result (λ image. IsImageOf program.now entry image) }
    ensures large { IfErr result (λ e. e ≡ image.TooLarge → IsTooLarge program.now) }
    ensures not_found { IfErr result (λ e. e ≡ image.FrameNotFound → finds_frames program.now ≡ false) }
{
    let plan = plan_of(alloc, program)?;
    let words = words_of(alloc, program, &plan, entry)?;
    are_words(program.laid.as_slice());
    Ok(image_of(words, plan.front.start_at))
}

/// An image of these words, which begins with the instruction at a position.
pub fn image_of(words: WordList, start_at: u32) -> Image
    requires { (start_at < length words) × (length words < 2 ^ 24) }
    ensures words { result.words ≡ words }
    ensures starts { result.entry ≡ 4 * start_at }
{
    Image {
        entry: 4 * start_at,
        words,
    }
}

// Each word has 32 bits, by its type.
fn are_words(words: &[u32])
    ensures { LaidAreWords words.now }
{
    let _ = words;
}
