// Following links into the stack of frames.

ghost use Rattle.std.specs.Prelude.{◌≡◌, MatchOption};
ghost use Rattle.eval_state.specs.Links.{next_of, IsNearest, IsNoneNearer};

use crate::frame::ContinuationFrame;
use crate::machine::Machine;

/// What is linked: exits, exits of the own activation, handlers, or dynamic bindings.
#[derive(Clone, Copy)]
pub enum LinkKind {
    Exits,
    Own,
    Handlers,
    Bindings,
}

// The link of a frame to what comes behind it, where it links things of that kind.
fn next(frame: &ContinuationFrame<'_>, kind: LinkKind) -> Option<usize>
    ensures { result ≡ next_of kind frame.now }
{
    match frame {
        ContinuationFrame::Block { exits, own, .. } => match kind {
            LinkKind::Exits => Some(*exits),
            LinkKind::Own => Some(*own),
            _ => None,
        },
        ContinuationFrame::Tagbody { outside, .. } => match kind {
            LinkKind::Exits => Some(outside.around.exits),
            LinkKind::Own => Some(outside.own),
            _ => None,
        },
        ContinuationFrame::Catch { exits, .. } | ContinuationFrame::Signal { exits, .. } =>
            match kind {
                LinkKind::Exits => Some(*exits),
                _ => None,
            },
        ContinuationFrame::MainForms(..) => match kind {
            LinkKind::Exits => Some(0),
            _ => None,
        },
        ContinuationFrame::Handles(_, outside) => match kind {
            LinkKind::Handlers => Some(*outside),
            _ => None,
        },
        ContinuationFrame::Binds(_, _, outside) => match kind {
            LinkKind::Bindings => Some(*outside),
            _ => None,
        },
        _ => None,
    }
}

impl<'p> Machine<'p> {
    #[tactic(auto, using(crate::proofs::Nearest::none_yet, crate::proofs::Nearest::all_searched))]
    /// The innermost frame, among the first so many, that links things of that kind; and its link, which is at most its place.
    pub fn nearest(&self, kind: LinkKind, link: usize) -> Option<(&ContinuationFrame<'p>, usize)>
        ensures { MatchOption result (IsNoneNearer kind self.now.frames.items 0 link) (λ found. IsNearest kind self.now.frames.items link found.0.now found.1) }
    {
        let mut left = link.min(self.frames.len());
        while left > 0 {
            let place = left - 1;
            let frame = &self.frames[place];
            match next(frame, kind) {
                Some(behind) => return Some((frame, behind.min(place))),
                None => left = place,
            }
        }
        None
    }
}
