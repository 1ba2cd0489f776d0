// The action `build`: a file compiled as a whole program, and its image written.

ghost use Rattle.std.specs.Prelude.{◌≡◌, ℕ, List, Option, Some, None};
ghost use Rattle.base.specs.Outside.{Rose};
ghost use Rattle.top_command.specs.declared.command.Action.TheVariants.{Build as ToBuild};
ghost use Rattle.top_main.specs.Images.{IsImageOf};
ghost use Rattle.top_main.specs.Theorem.{IsTextOf};
ghost use Rattle.top_main.specs.Answers.{WriteAnswers, BuildAnswers};

use crate::kept::Kept;
use crate::reading::read_program;
use crate::writing::write_bytes;
use back_build::build;
use base::{Bytes, LONGEST_TEXT, NoMemory, Shelf, Sink};
use front_files::{Mode, Whole};
use rv_image_file::write_image;
use rv_machine::Image;
use std::alloc::Global;
use top_exec::{LoadStop, loading};
use top_lines::CommandAnswer;

// The most sites that an image file has.
const MOST_SITES: usize = 100_000;

/// Judges the file's text as a whole program, compiles it, and writes the bytes of its image file; the image is kept. `WriteFault`
/// only where the count of the sink's faults rose.
pub(crate) fn build_file<F: Shelf, O: Sink>(
    alloc: Global,
    file: &str,
    shelf: &mut F,
    out: &mut O,
    kept: &mut Kept,
) -> CommandAnswer
    requires empty { kept.old.image ≡ None }
    ensures { WriteAnswers result (F.holds shelf.old file.now) kept.new.image (O.given out.old) (O.given out.new)
        (Rose (F.faults shelf.old) (F.faults shelf.new))
        (Rose (O.faults out.old) (O.faults out.new)) (out.new ≡ out.old) }
{
    match loading::load(alloc, shelf, file, LONGEST_TEXT + 1) {
        Ok(text) => build_text(alloc, text, out, kept),
        Err(LoadStop::Failed) => CommandAnswer::FileFault,
        Err(LoadStop::NoMemory) => CommandAnswer::NoMemory,
    }
}

// Judges a text as a whole program, and writes its image.
fn build_text<O: Sink>(alloc: Global, text: Bytes, out: &mut O, kept: &mut Kept) -> CommandAnswer
    requires empty { kept.old.image ≡ None }
    ensures { (held : Option (List ℕ)) → IsTextOf ToBuild held text →
        WriteAnswers result held kept.new.image (O.given out.old) (O.given out.new) ⊥
        (Rose (O.faults out.old) (O.faults out.new)) (out.new ≡ out.old) }
{
    match read_program(alloc, text.as_slice(), Mode::Run) {
        Ok(whole) => {
            drop(text);
            let answer = build_whole(alloc, &whole, out, kept);
            drop(whole);
            answer
        }
        Err(stop) => CommandAnswer::of_stop(text, stop),
    }
}

// Compiles a whole program, writes its image and keeps it. A program that is not compiled is answered as want of memory.
fn build_whole<O: Sink>(alloc: Global, whole: &Whole, out: &mut O, kept: &mut Kept) -> CommandAnswer
    ensures { BuildAnswers result whole.now.names whole.now.program kept.new.image (O.given out.old) (O.given out.new)
        (Rose (O.faults out.old) (O.faults out.new)) (out.new ≡ out.old) }
{
    match build(alloc, &whole.program, &whole.names) {
        Ok(built) => {
            let image = built.image;
            let answer = write_file(alloc, whole, &image, out);
            kept.image = Some(image);
            answer
        }
        Err(_) => CommandAnswer::NoMemory,
    }
}

// Writes the file of the image of a program. One with more sites than a file has is answered as want of memory.
fn write_file<O: Sink>(alloc: Global, whole: &Whole, image: &Image, out: &mut O) -> CommandAnswer
    requires is_image { IsImageOf whole.now.names whole.now.program image.now }
    ensures { BuildAnswers result whole.now.names whole.now.program (Some image.now) (O.given out.old) (O.given out.new)
        (Rose (O.faults out.old) (O.faults out.new)) (out.new ≡ out.old) }
{
    let sites = &whole.program.rows().sites;
    if sites.len() > MOST_SITES {
        return CommandAnswer::NoMemory;
    }
    match write_image(alloc, image, sites) {
        Ok(bytes) => {
            let answer = write_bytes(out, bytes.as_slice());
            drop(bytes);
            answer
        }
        Err(NoMemory) => CommandAnswer::NoMemory,
    }
}
