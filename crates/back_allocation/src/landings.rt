// The landings of the records that stand at lines.

ghost use Rattle.std.specs.Prelude.{◌≡◌, ◌∷◌, [], drop, IfOk};
ghost use Rattle.back_allocation.specs.StandingLandings.{landings_at, landings_behind, line_landings};

use crate::steps::{LandingsList, copied};
use base::NoMemory;
use mid_lines::{Line, LineList, TargetList};
use std::alloc::Global;

/// The landings of the records that stand at each line of a procedure, the innermost first.
pub fn landings_of_lines(alloc: Global, lines: &LineList) -> Result<LandingsList, NoMemory>
    ensures { IfOk result (λ landings. landings ≡ line_landings 0 [] lines.now) }
{
    let mut landings = LandingsList::new(alloc);
    let mut here = TargetList::new(alloc);
    for at in 0..lines.len() {
        let Some(line) = lines.get(at) else {
            unreachable!()
        };
        landings.push(landings_at(alloc, at, here.as_slice(), line)?)?;
        here = landings_behind(alloc, at, here.as_slice(), line)?;
    }
    Ok(landings)
}

// The landings at a line, where these stand in front of it.
fn landings_at(
    alloc: Global,
    at: usize,
    here: &[usize],
    line: &Line,
) -> Result<TargetList, NoMemory>
    ensures { IfOk result (λ landings. landings ≡ landings_at at here.now line.now) }
{
    match line {
        Line::Landed(_) => with_landing(alloc, at, here),
        _ => copied(alloc, here),
    }
}

// The landings behind a line.
fn landings_behind(
    alloc: Global,
    at: usize,
    here: &[usize],
    line: &Line,
) -> Result<TargetList, NoMemory>
    ensures { IfOk result (λ landings. landings ≡ landings_behind at here.now line.now) }
{
    match line {
        Line::Lay { landing, .. } => with_landing(alloc, *landing, here),
        Line::Landed(_) => with_landing(alloc, at, here),
        Line::GiveBack(_) => without_first(alloc, here),
        _ => copied(alloc, here),
    }
}

fn with_landing(alloc: Global, landing: usize, here: &[usize]) -> Result<TargetList, NoMemory>
    ensures { IfOk result (λ landings. landings ≡ landing ∷ here.now) }
{
    let mut landings = TargetList::new(alloc);
    landings.push(landing)?;
    landings.append_list(copied(alloc, here)?)?;
    Ok(landings)
}

fn without_first(alloc: Global, here: &[usize]) -> Result<TargetList, NoMemory>
    ensures { IfOk result (λ landings. landings ≡ drop 1 here.now) }
{
    if here.is_empty() {
        Ok(TargetList::new(alloc))
    } else {
        copied(alloc, &here[1..])
    }
}
