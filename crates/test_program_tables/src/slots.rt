// Slots as data: a name, or a name with its options.

use crate::inputs::{id, items, name, word};
use base::{Datum, NameList, Names};
use lang_meaning::{SlotRow, SlotRows};
use test_rows::RowAnswer;

/// The slots that these data describe.
pub fn slot_rows(got: &mut RowAnswer, names: &Names, data: &[Datum]) -> Option<SlotRows> {
    let mut rows = SlotRows::new(got.alloc);
    for datum in data {
        let slot = slot_row(got, names, datum)?;
        got.add(&mut rows, slot);
    }
    Some(rows)
}

/// The slot that a datum describes.
pub fn slot_row(got: &mut RowAnswer, names: &Names, datum: &Datum) -> Option<SlotRow> {
    match items(datum) {
        Some([own, options @ ..]) => with_options(got, names, own, options),
        _ => with_options(got, names, datum, &[]),
    }
}

// A slot with its options: `:initarg NAME` and `:initform PROCEDURE`.
fn with_options(
    got: &mut RowAnswer,
    names: &Names,
    own: &Datum,
    options: &[Datum],
) -> Option<SlotRow> {
    let mut slot = SlotRow {
        name: name(own)?,
        initargs: NameList::new(got.alloc),
        initform: None,
    };
    if take_options(got, names, &mut slot, options).is_none() {
        drop(slot);
        return None;
    }
    Some(slot)
}

fn take_options(
    got: &mut RowAnswer,
    names: &Names,
    slot: &mut SlotRow,
    options: &[Datum],
) -> Option<()> {
    for option in options.chunks(2) {
        take_option(got, names, slot, option)?;
    }
    Some(())
}

fn take_option(
    got: &mut RowAnswer,
    names: &Names,
    slot: &mut SlotRow,
    option: &[Datum],
) -> Option<()> {
    let [key, value] = option else {
        return None;
    };
    match word(names, key)? {
        ":initarg" => got.add(&mut slot.initargs, name(value)?),
        ":initform" => slot.initform = Some(id(value)?),
        _ => return None,
    }
    Some(())
}
