// What of the static context of a function it can capture.

ghost use Rattle.std.specs.Prelude.{◌≡◌, IfOk};
ghost use Rattle.std.specs.List.{filter_map};
ghost use Rattle.front_profile.specs.Names as named;
ghost use Rattle.front_profile.specs.Names.{parts_around};

use base::NoMemory;
use front_context::Bindings;
use front_profile::Bound;
use lang_meaning::{Capture, CaptureList};
use std::alloc::Global;

fn variable_part(bound: &Bound) -> Option<Capture>
    ensures { result ≡ named.variable_part bound.now }
{
    match bound {
        Bound::Variable(_, var) => Some(Capture::Variable(*var)),
        Bound::Function(_, _) => None,
        Bound::Block(_, _) => None,
        Bound::Tags(_, _) => None,
    }
}

fn exit_part(bound: &Bound) -> Option<Capture>
    ensures { result ≡ named.exit_part bound.now }
{
    match bound {
        Bound::Block(_, exit) => Some(Capture::Exit(*exit)),
        Bound::Tags(_, exit) => Some(Capture::Exit(*exit)),
        Bound::Variable(_, _) => None,
        Bound::Function(_, _) => None,
    }
}

fn variable_parts(alloc: Global, bound: &Bindings) -> Result<CaptureList, NoMemory>
    ensures { IfOk result (λ parts. parts ≡ filter_map named.variable_part bound.now) }
{
    let mut parts = CaptureList::new(alloc);
    for one in bound.as_slice() {
        if let Some(part) = variable_part(one) {
            parts.push(part)?;
        }
    }
    Ok(parts)
}

fn exit_parts(alloc: Global, bound: &Bindings) -> Result<CaptureList, NoMemory>
    ensures { IfOk result (λ parts. parts ≡ filter_map named.exit_part bound.now) }
{
    let mut parts = CaptureList::new(alloc);
    for one in bound.as_slice() {
        if let Some(part) = exit_part(one) {
            parts.push(part)?;
        }
    }
    Ok(parts)
}

/// The parts of the static context that a function made there can capture: variables, exits, and the
/// method part.
pub(crate) fn parts_around(
    alloc: Global,
    bound: &Bindings,
    in_method: bool,
) -> Result<CaptureList, NoMemory>
    ensures { IfOk result (λ parts. parts ≡ parts_around bound.now in_method) }
{
    let mut parts = variable_parts(alloc, bound)?;
    parts.append_list(exit_parts(alloc, bound)?)?;
    if in_method {
        parts.push(Capture::Method)?;
    }
    Ok(parts)
}
