// New variables, each of which that has a box gets one.

ghost use Rattle.std.specs.Prelude.{◌≡◌, ◌++◌, ◌+◌, ◌<◌, ◌^◌, [], ◌∷◌, length, OnOk};
ghost use Rattle.back_lowering.specs.Leaves as leaves;

use crate::steps::{move_word, push_four, request};
use base::NoMemory;
use flat_language::{Home, HomeList};
use mid_arena::steps::{constant, store};
use mid_code::{Code, Register};

// A new variable whose word is in d gets a box, where it has one; t and the next one are used.
fn box_made(code: &mut Code, home: Home, d: Register, t: Register) -> Result<(), NoMemory>
    requires { t < 2 ^ 62 }
    ensures { OnOk result (code.new ≡ code.old ++ leaves.boxes_made (home ∷ []) d t) }
{
    if let Home::Boxed = home {
        push_four(
            code,
            constant(t, 1),
            request(t + 1, t),
            store(d, t + 1, 0),
            move_word(d, t + 1),
        )?;
    }
    Ok(())
}

/// New variables whose words are in registers from d on: each that has a box gets one, whose address is then in its register; t and the
/// next one are used.
pub fn boxes_made(
    code: &mut Code,
    homes: &HomeList,
    d: Register,
    t: Register,
) -> Result<(), NoMemory>
    requires many { d + length homes.now < 2 ^ 62 }
    requires free { t < 2 ^ 62 }
    ensures { OnOk result (code.new ≡ code.old ++ leaves.boxes_made homes.now d t) }
{
    for i in 0..homes.len() {
        let Some(home) = homes.get(i) else {
            unreachable!()
        };
        box_made(code, *home, d + i, t)?;
    }
    Ok(())
}
