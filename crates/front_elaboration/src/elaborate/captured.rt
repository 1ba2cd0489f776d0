// What a function captures: the parts around it that its body mentions (ISO/IEC 13816:2007, 12.7).

ghost use Rattle.std.specs.Prelude.{◌≡◌, filter, IfOk};
ghost use Rattle.front_elaboration.specs.Mentioned.{has};

use crate::mentioned::Mentioned;
use base::NoMemory;
use lang_meaning::CaptureList;
use std::alloc::Global;

/// Those of these parts, in their order, that the body mentions.
pub(crate) fn captured(
    alloc: Global,
    around: &CaptureList,
    body: &Mentioned,
) -> Result<CaptureList, NoMemory>
    ensures { IfOk result (λ parts. parts ≡ filter (has body.now) around.now) }
{
    let mut parts = CaptureList::new(alloc);
    for part in around.as_slice() {
        if body.has(*part) {
            parts.push(*part)?;
        }
    }
    Ok(parts)
}
