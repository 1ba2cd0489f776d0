// A file taken from the shelf.

ghost use Rattle.std.specs.Prelude.{◌≡◌, ◌≤◌, IfOk};
ghost use Rattle.base.specs.Outside.{Rose};
ghost use Rattle.top_exec.specs.Loads.{IsTaken};
ghost use Rattle.top_exec.specs.declared.loading.LoadStop.TheVariants.{Failed as Stopped};

use base::{Bytes, Failed, Shelf};
use std::alloc::Global;

/// Why a file was not taken.
#[derive(Clone, Copy)]
pub enum LoadStop {
    Failed,
    NoMemory,
}

impl From<base::NoMemory> for LoadStop {
    ghost use Rattle.std.specs.Prelude.{◌≡◌};
    ghost use Rattle.top_exec.specs.declared.loading.LoadStop.TheVariants as stop;

    ghost from_gives = { λ _ stopped. stopped ≡ stop.NoMemory };

    fn from(_: base::NoMemory) -> LoadStop {
        LoadStop::NoMemory
    }
}

// The bytes that are asked for at once.
const PIECE: usize = 4096;

/// The file's bytes, all of them or the first of that number. `Failed` only where the count of the shelf's
/// faults rose.
pub fn load<F: Shelf>(
    alloc: Global,
    shelf: &mut F,
    name: &str,
    limit: usize,
) -> Result<Bytes, LoadStop>
    ensures taken { IfOk result (λ text. IsTaken limit (F.holds shelf.old name.now) text) }
    ensures fault { result ≡ Err Stopped → Rose (F.faults shelf.old) (F.faults shelf.new) }
    ensures count { F.faults shelf.old ≤ F.faults shelf.new }
{
    let mut text = Bytes::new(alloc);
    let mut piece = [0u8; PIECE];
    while text.len() < limit {
        let room = PIECE.min(limit - text.len());
        match shelf.read(name, text.len() as u64, &mut piece[..room]) {
            Ok(0) => return Ok(text),
            Ok(n) => text.append(&piece[..n])?,
            Err(Failed) => return Err(LoadStop::Failed),
        }
    }
    Ok(text)
}
