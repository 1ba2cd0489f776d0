// A run of an image, and how it ends.

ghost use Rattle.std.specs.Prelude.{◌≡◌, ◌≤◌, length, IfOk, OnErr};
ghost use Rattle.base.specs.Outside.{Rose};
ghost use Rattle.top_exec.specs.Runs.{ImageComes, LeavesState, FaultTells, sent_to};

use base::{NoMemory, Sink, Source};
use rv_machine::{Ending, Image, Machine};
use std::alloc::Global;

// The register that has the number of a condition's site.
const SITE_REGISTER: u32 = 11;

/// How many instructions a run may execute, or how many levels an evaluation may have, and the words of its
/// arena.
#[derive(Clone, Copy)]
pub struct Bounds {
    pub steps: u32,
    pub arena: u32,
}

/// How a run of an image ended, what register 11 then had, which has the number of a condition's site, and how many
/// instructions were executed.
#[derive(Clone, Copy)]
pub struct ImageEnd {
    pub ending: Ending,
    pub site: u32,
    pub executed: u64,
}

/// How a run of an image ended, and the machine as it left it.
#[derive(Drop)]
pub struct ImageRun {
    pub end: ImageEnd,
    pub machine: Machine,
}

/// Runs at most so many instructions of an image, in an arena of so many words. `ReadFault` and `WriteFault` only where the
/// count of the source's or the sink's faults rose; after `NoMemory` nothing ran.
pub fn run_image<S: Source, O: Sink>(
    alloc: Global,
    image: &Image,
    bounds: Bounds,
    input: &mut S,
    out: &mut O,
) -> Result<ImageEnd, NoMemory>
    requires fits { length image.now.words ≤ bounds.arena }
    requires most { bounds.arena ≤ 16777216 }
    ensures comes { IfOk result (ImageComes image.now bounds.arena bounds.steps (S.left input.old) (S.left input.new)
        (sent_to (O.given out.old) (O.writes out.old) (O.given out.new) (O.writes out.new))) }
    ensures fault { IfOk result (λ end. FaultTells end.ending (Rose (S.faults input.old) (S.faults input.new))
        (Rose (O.faults out.old) (O.faults out.new))) }
    ensures same { OnErr result ((out.new ≡ out.old) × (input.new ≡ input.old)) }
    ensures count { O.faults out.old ≤ O.faults out.new }
{
    let run = run_machine(alloc, image, bounds, input, out)?;
    let end = run.end;
    drop(run);
    Ok(end)
}

/// The same, with the machine as the run left it.
pub fn run_machine<S: Source, O: Sink>(
    alloc: Global,
    image: &Image,
    bounds: Bounds,
    input: &mut S,
    out: &mut O,
) -> Result<ImageRun, NoMemory>
    requires fits { length image.now.words ≤ bounds.arena }
    requires most { bounds.arena ≤ 16777216 }
    ensures comes { IfOk result (λ run. ImageComes image.now bounds.arena bounds.steps (S.left input.old) (S.left input.new)
        (sent_to (O.given out.old) (O.writes out.old) (O.given out.new) (O.writes out.new)) run.end) }
    ensures leaves { IfOk result (λ run. LeavesState run.end.ending image.now bounds.arena bounds.steps (S.left input.old) run.machine.state) }
    ensures fault { IfOk result (λ run. FaultTells run.end.ending (Rose (S.faults input.old) (S.faults input.new))
        (Rose (O.faults out.old) (O.faults out.new))) }
    ensures same { OnErr result ((out.new ≡ out.old) × (input.new ≡ input.old)) }
    ensures count { O.faults out.old ≤ O.faults out.new }
{
    let mut machine = Machine::started(alloc, image, bounds.arena)?;
    let ending = machine.run(bounds.steps as u64, input, out);
    let site = machine.register(SITE_REGISTER);
    let executed = machine.count();
    let end = ImageEnd {
        ending,
        site,
        executed,
    };
    Ok(ImageRun { end, machine })
}
