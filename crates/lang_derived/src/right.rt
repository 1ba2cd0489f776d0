// Right sides of rows, with the number of their new symbols.

ghost use Rattle.std.specs.Prelude.{◌≡◌, ◌+◌, IfOk};

use crate::piece::Piece;
use base::NoMemory;
use std::marker::Model;

/// A right side, and how many new symbols it has.
#[derive(Drop)]
pub(crate) struct Right<'a> {
    pub(crate) piece: Piece<'a>,
    pub(crate) count: u64,
}

impl<'a> Model for Right<'a> {
    ghost use Rattle.lang_derived.specs.Pieces.{Right as RightOf};

    ghost Value = { RightOf };

    ghost use Rattle.lang_derived.specs.model.PieceCode.{right_code};

    ghost coded = { right_code };

    ghost view = { λ r. record { piece = r.piece; count = r.count } };
}

/// A serial so many later. No memory holds so many symbols that there is none.
pub(crate) fn later(serial: u64, by: u64) -> Result<u64, NoMemory>
    ensures { IfOk result (λ n. n ≡ serial + by) }
{
    match serial.checked_add(by) {
        Some(n) => Ok(n),
        None => Err(NoMemory),
    }
}
