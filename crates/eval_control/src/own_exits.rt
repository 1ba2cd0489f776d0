// The exits of the activation that runs, which its code names by their numbers from the outermost one on.

ghost use Rattle.std.specs.Prelude.{◌≡◌, ◌∷◌, [], IfOk, length, option_map, reverse, slice_get};
ghost use Rattle.eval_state.specs.Chains.{chained};
ghost use Rattle.eval_state.specs.Frames.{own_link, own_in};

use base::NoMemory;
use eval_state::frame::ContinuationFrame;
use eval_state::links::LinkKind;
use eval_state::machine::Machine;
use eval_state::places::place_behind;

// The number of the exit that a frame makes for its own activation.
fn own_number(frame: &ContinuationFrame<'_>) -> Option<u64>
    ensures { option_map (λ l. l.items) (own_link frame.now) ≡ option_map (λ n. n ∷ []) result }
{
    match frame {
        ContinuationFrame::Block { number, .. } => Some(*number),
        ContinuationFrame::Tagbody { number, .. } => Some(*number),
        _ => None,
    }
}

/// The exit of that number, where a link goes to the innermost one.
pub fn own_exit(machine: &Machine<'_>, link: usize, number: usize) -> Result<Option<u64>, NoMemory>
    ensures { IfOk result (λ exit. exit ≡ slice_get (own_in (reverse machine.now.frames.items) link) number) }
{
    let count = own_count(machine, link)?;
    if number < count {
        Ok(own_behind(machine, link, count - 1 - number))
    } else {
        Ok(None)
    }
}

// How many there are from a link on.
fn own_count(machine: &Machine<'_>, link: usize) -> Result<usize, NoMemory>
    ensures { IfOk result (λ count. count ≡ length (chained own_link (reverse machine.now.frames.items) link)) }
{
    let mut left = link;
    let mut count = 0;
    while let Some((_frame, behind)) = machine.nearest(LinkKind::Own, left) {
        count = place_behind(count)?;
        left = behind;
    }
    Ok(count)
}

// The exit behind so many others, from a link on.
fn own_behind(machine: &Machine<'_>, link: usize, others: usize) -> Option<u64>
    ensures { result ≡ slice_get (chained own_link (reverse machine.now.frames.items) link) others }
{
    let mut left = link;
    let mut more = others;
    while let Some((frame, behind)) = machine.nearest(LinkKind::Own, left) {
        if more == 0 {
            return own_number(frame);
        }
        more -= 1;
        left = behind;
    }
    None
}
