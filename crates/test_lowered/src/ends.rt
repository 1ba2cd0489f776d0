// How a run came to its end and what it printed, and whether two runs did the same.

use base::{Bytes, Place};
use front_files::Whole;
use lang_meaning::ClassId;
use rv_machine::TrapKind;
use test_rows::RowAnswer;

/// How a run ended.
#[derive(Clone, Copy)]
pub enum End {
    Value,
    Unhandled(ClassId, Place),
    Full,
    More,
    Fault,
    Trap(TrapKind, u32),
}

/// How a run ended, what it printed, and its count: the instructions that an image took, the units of an evaluation.
#[derive(Drop)]
pub struct Told {
    pub end: End,
    pub printed: Bytes,
    pub count: u64,
}

/// Appends how the program ends by its meaning, and whether the image did the same: `same`; `within` where words were wanting for the
/// meaning and the image has printed what it did, and perhaps went on; else what each did.
pub fn put_compared(got: &mut RowAnswer, whole: &Whole, meant: &Told, done: &Told) {
    put_end(got, whole, meant.end);
    if is_same(meant, done) {
        got.put(" same");
    } else if is_within(meant, done) {
        got.put(" within");
    } else {
        got.put(" different: ");
        put_end(got, whole, done.end);
        got.put(" meant=");
        got.put_bytes(meant.printed.as_slice());
        got.put(" done=");
        got.put_bytes(done.printed.as_slice());
    }
}

fn is_same(meant: &Told, done: &Told) -> bool {
    is_same_end(meant.end, done.end) && meant.printed.as_slice() == done.printed.as_slice()
}

fn is_same_end(meant: End, done: End) -> bool {
    match (meant, done) {
        (End::Value, End::Value) => true,
        (End::Unhandled(class, place), End::Unhandled(other, at)) => class == other && place == at,
        (End::More, End::More) => true,
        _ => false,
    }
}

fn is_within(meant: &Told, done: &Told) -> bool {
    match meant.end {
        End::Full => done
            .printed
            .as_slice()
            .starts_with(meant.printed.as_slice()),
        _ => false,
    }
}

fn put_end(got: &mut RowAnswer, whole: &Whole, end: End) {
    match end {
        End::Value => got.put("value"),
        End::Unhandled(class, place) => {
            got.put("unhandled ");
            put_class(got, whole, class);
            got.put(" at ");
            got.put_place(place);
        }
        End::Full => got.put("full"),
        End::More => got.put("more"),
        End::Fault => got.put("fault"),
        End::Trap(kind, address) => {
            got.put("trap ");
            got.put_debug(&kind);
            got.put(" at ");
            got.put(address);
        }
    }
}

// The name of a class.
fn put_class(got: &mut RowAnswer, whole: &Whole, class: ClassId) {
    if let Some(row) = whole.program.rows().classes.get(class)
        && let Some(text) = whole.names.text(row.name)
    {
        got.put_bytes(text);
    }
}
