// The action `exec`: an image file run.

ghost use Rattle.std.specs.Prelude.{◌≡◌, ◌≤◌};
ghost use Rattle.base.specs.Outside.{Rose};
ghost use Rattle.top_exec.specs.Runs.{sent_to};
ghost use Rattle.top_exec.specs.Executes.{ExecAnswers, ImageAnswers, answer_of_stop, told_of, site_of};

use crate::image_run::{Bounds, ImageEnd, run_image};
use crate::loading::{LoadStop, load};
use base::{NoMemory, Place, Shelf, Sink, Source};
use rv_image_file::{ImageFile, ImageStop, read_image};
use rv_machine::Ending;
use std::alloc::Global;
use top_lines::CommandAnswer;

// As many bytes of an image file are taken: one more than the longest has.
const LIMIT: usize = 67_908_885;

/// Reads the file as an image file, and runs at most so many instructions of its image in an arena of so many words.
/// `ReadFault` and `WriteFault` only where the count of the source's or the sink's faults rose.
pub fn exec_file<F: Shelf, S: Source, O: Sink>(
    alloc: Global,
    bounds: Bounds,
    file: &str,
    shelf: &mut F,
    input: &mut S,
    out: &mut O,
) -> CommandAnswer
    requires most { bounds.arena ≤ 16777216 }
    ensures { ExecAnswers result (F.holds shelf.old file.now) bounds.arena bounds.steps
        (S.left input.old) (S.left input.new)
        (sent_to (O.given out.old) (O.writes out.old) (O.given out.new) (O.writes out.new))
        (Rose (F.faults shelf.old) (F.faults shelf.new)) (Rose (S.faults input.old) (S.faults input.new))
        (Rose (O.faults out.old) (O.faults out.new)) ((out.new ≡ out.old) × (input.new ≡ input.old)) }
{
    let bytes = match load(alloc, shelf, file, LIMIT) {
        Ok(bytes) => bytes,
        Err(LoadStop::Failed) => return CommandAnswer::FileFault,
        Err(LoadStop::NoMemory) => return CommandAnswer::NoMemory,
    };
    match read_image(alloc, bytes.as_slice()) {
        Ok(read) => {
            let answer = exec(alloc, &read, bounds, input, out);
            drop(read);
            answer
        }
        Err(stop) => answer_of_stop(stop),
    }
}

// The answer for a file of which no image was read.
fn answer_of_stop(stop: ImageStop) -> CommandAnswer
    ensures { result ≡ answer_of_stop stop }
{
    match stop {
        ImageStop::Bad(fault) => CommandAnswer::BadImage(fault),
        ImageStop::NoMemory => CommandAnswer::NoMemory,
    }
}

// Runs the image of a file where the arena has room for it.
fn exec<S: Source, O: Sink>(
    alloc: Global,
    file: &ImageFile,
    bounds: Bounds,
    input: &mut S,
    out: &mut O,
) -> CommandAnswer
    requires most { bounds.arena ≤ 16777216 }
    ensures { ImageAnswers result file.now.image file.now.sites bounds.arena bounds.steps
        (S.left input.old) (S.left input.new)
        (sent_to (O.given out.old) (O.writes out.old) (O.given out.new) (O.writes out.new))
        (Rose (S.faults input.old) (S.faults input.new)) (Rose (O.faults out.old) (O.faults out.new))
        ((out.new ≡ out.old) × (input.new ≡ input.old)) }
{
    let words = file.image.words();
    if bounds.arena < words {
        return CommandAnswer::ArenaFull {
            asked: words as u64,
            left: bounds.arena as u64,
        };
    }
    match run_image(alloc, &file.image, bounds, input, out) {
        Ok(end) => answer_of(file, bounds.steps, end),
        Err(NoMemory) => CommandAnswer::NoMemory,
    }
}

// The answer of a run that ended so.
fn answer_of(file: &ImageFile, steps: u32, end: ImageEnd) -> CommandAnswer
    ensures { result ≡ told_of file.now.sites end.site steps end.ending }
{
    match end.ending {
        Ending::Halt(_) => CommandAnswer::Done,
        Ending::Unhandled(class) => CommandAnswer::UnhandledClass {
            class,
            site: site_of(file, end.site),
        },
        Ending::Full { asked, left } => CommandAnswer::ArenaFull {
            asked: asked as u64,
            left: left as u64,
        },
        Ending::Budget => CommandAnswer::Budget(steps),
        Ending::Trap(kind, address) => CommandAnswer::Trap { kind, address },
        Ending::ReadFault => CommandAnswer::ReadFault,
        Ending::WriteFault => CommandAnswer::WriteFault,
    }
}

// The place of the site of that number, from 1 on; none where the file has no such site.
fn site_of(file: &ImageFile, number: u32) -> Option<Place>
    ensures { result ≡ site_of file.now.sites number }
{
    if number == 0 {
        return None;
    }
    file.sites.get(number as usize - 1).copied()
}
