// The data of an input, read by the reader.

ghost use Rattle.std.specs.Prelude.{◌≤◌, length};
ghost use Rattle.base.specs.Limits.{longest_text};

use crate::answer::RowAnswer;
use base::{DatumList, LONGEST_TEXT, Names, Origin};
use front_reader::Reader;

/// All data of a text of a file; none where the text is refused.
pub fn read_data(got: &mut RowAnswer, names: &mut Names, text: &[u8]) -> Option<DatumList> {
    if text.len() > LONGEST_TEXT {
        return None;
    }
    let mut data = DatumList::new(got.alloc);
    if add_data(got, names, &mut data, text).is_none() {
        drop(data);
        return None;
    }
    Some(data)
}

// Appends the data of a text.
fn add_data(got: &mut RowAnswer, names: &mut Names, data: &mut DatumList, text: &[u8]) -> Option<()>
    requires { length text.now ≤ longest_text }
{
    let mut reader = Reader::new(text, Origin::File);
    for _ in 0..text.len() {
        match reader.next(got.alloc, names).ok()? {
            Some(datum) => got.add(data, datum),
            None => break,
        }
    }
    Some(())
}
