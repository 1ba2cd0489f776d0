// Texts, and the data or the stop that the reader gives of them.

ghost use Rattle.std.specs.Prelude.{◌≤◌, length};
ghost use Rattle.base.specs.Limits.{longest_text};

use crate::tables::DEPTH;
use base::{LONGEST_TEXT, Names, Origin};
use front_reader::Reader;
use test_rows::{RowAnswer, Style, show};

/// A text. The answer is each datum with its places and then `end`, or `!` and the stop with its
/// place. Where `last` says otherwise, or the stop is not answered again, it is said too.
pub fn answer_row(got: &mut RowAnswer, origin: Origin, text: &[u8]) -> Option<()> {
    if text.len() > LONGEST_TEXT {
        return None;
    }
    let mut names = Names::new(got.alloc);
    let answered = put_all(got, &mut names, origin, text);
    drop(names);
    answered
}

fn put_all(got: &mut RowAnswer, names: &mut Names, origin: Origin, text: &[u8]) -> Option<()>
    requires { length text.now ≤ longest_text }
{
    let mut reader = Reader::new(text, origin);
    for _ in 0..=text.len() {
        if put_next(got, names, &mut reader)? {
            break;
        }
    }
    Some(())
}

// Appends the next answer of the reader, and says whether it is the last one.
fn put_next(got: &mut RowAnswer, names: &mut Names, reader: &mut Reader) -> Option<bool> {
    let is_last = reader.last();
    match reader.next(got.alloc, names) {
        Ok(Some(datum)) => {
            got.put(if is_last { "last? " } else { "" });
            let shown = show(got, names, &datum, Style::Placed, DEPTH);
            drop(datum);
            shown?;
            got.put(" ");
            Some(false)
        }
        Ok(None) => {
            got.put(if is_last { "end" } else { "not last? end" });
            Some(true)
        }
        Err(stop) => {
            got.put(if is_last { "last? !" } else { "!" });
            got.put_stop(stop);
            let again = reader.next(got.alloc, names).err();
            got.put(if again == Some(stop) {
                ""
            } else {
                " not again"
            });
            Some(true)
        }
    }
}
