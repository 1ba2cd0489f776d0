// Reading step by step: a gap and a lexeme each.

ghost use Rattle.std.specs.Prelude.{◌≡◌, ◌<◌, ℕ, List, [], length, reverse, IfOk};
ghost use Rattle.front_reader.specs.Meanings.{number_in};
ghost use Rattle.front_reader.specs.Readers.{PlacesFit};
ghost use Rattle.front_reader.specs.bridge.Turns.{IsLater};
ghost use Rattle.front_reader.specs.bridge.Steps.{TurnLeads, LeadsLexed, ReadingGoesOn, DatumFound};

use crate::cursor::{Cursor, front, moved};
use crate::gap::{Skipped, skip};
use crate::lexeme::{Lexed, lex};
use crate::pending::Pending;
use crate::turn::{innermost, take_lexeme};
use base::{Datum, Names, Place, Reason, Refusal, Stop};
use std::alloc::Global;

/// What a step of reading led to: to where the text goes on, to a whole datum, or to the end.
#[derive(Drop)]
pub(crate) enum Turn<'a> {
    Goes(Cursor<'a>),
    Whole(Cursor<'a>, Datum),
    Ends,
}

/// The first datum of a text, and what is left behind it.
pub(crate) fn read<'a>(
    alloc: Global,
    names: &mut Names,
    cursor: Cursor<'a>,
) -> Result<Option<(Cursor<'a>, Datum)>, Stop>
    requires fits { PlacesFit cursor.place cursor.rest.now }
    ensures found { DatumFound names.new cursor.entry.rest.now cursor.entry.place result }
    ensures names { IsLater names.old names.new }
{
    let _ = names.len();
    let mut pending = Vec::new(alloc);
    let mut cursor = cursor;
    loop {
        match step(alloc, &mut pending, names, cursor) {
            Ok(Turn::Goes(behind)) => cursor = behind,
            Ok(Turn::Whole(behind, datum)) => return Ok(Some((behind, datum))),
            Ok(Turn::Ends) => return Ok(None),
            Err(stop) => return Err(stop),
        }
    }
}

fn refused_at(place: Place, reason: Reason) -> Stop
    ensures { result ≡ Stop.Refused (record { place = place; reason = reason }) }
{
    Stop::Refused(Refusal { place, reason })
}

// A gap and a lexeme.
fn step<'a>(
    alloc: Global,
    pending: &mut Vec<Pending>,
    names: &mut Names,
    cursor: Cursor<'a>,
) -> Result<Turn<'a>, Stop>
    requires fits { PlacesFit cursor.place cursor.rest.now }
    ensures leads { (T : List (List ℕ)) → IsLater names.new T → TurnLeads (number_in T)
        (record { rest = cursor.entry.rest.now; place = cursor.entry.place; done = []; pending = reverse pending.old.items })
        result pending.new.items }
    ensures names { IsLater names.old names.new }
    ensures goes_on { IfOk result (ReadingGoesOn (length cursor.entry.rest.now)) }
{
    let _ = names.len();
    let n = match skip(cursor.rest) {
        Skipped::Ends(n) => n,
        Skipped::OpenFrom(n) => {
            let behind = moved(cursor, n);
            return Err(refused_at(behind.place, Reason::UnclosedComment));
        }
    };
    let cursor = moved(cursor, n);
    if cursor.rest.len() == 0 {
        return match innermost(pending.as_slice()) {
            Some(place) => Err(refused_at(place, Reason::UnclosedList)),
            None => Ok(Turn::Ends),
        };
    }
    next_lexeme(alloc, pending, names, cursor)
}

// A lexeme.
fn next_lexeme<'a>(
    alloc: Global,
    pending: &mut Vec<Pending>,
    names: &mut Names,
    cursor: Cursor<'a>,
) -> Result<Turn<'a>, Stop>
    requires fits { PlacesFit cursor.place cursor.rest.now }
    requires some { 0 < length cursor.rest.now }
    ensures leads { (T : List (List ℕ)) → IsLater names.new T → LeadsLexed (number_in T)
        (record { rest = cursor.entry.rest.now; place = cursor.entry.place; done = []; pending = reverse pending.old.items })
        result pending.new.items }
    ensures names { IsLater names.old names.new }
    ensures goes_on { IfOk result (ReadingGoesOn (length cursor.entry.rest.now)) }
{
    let _ = names.len();
    match lex(cursor.rest) {
        Lexed::Fault(k, reason) => {
            let behind = moved(cursor, k);
            Err(refused_at(behind.place, reason))
        }
        Lexed::Taken(n, lexeme) => {
            let word = front(cursor.rest, n);
            let behind = moved(cursor, n);
            match take_lexeme(alloc, pending, names, cursor.place, word, lexeme) {
                Ok(Some(datum)) => Ok(Turn::Whole(behind, datum)),
                Ok(None) => Ok(Turn::Goes(behind)),
                Err(stop) => Err(stop),
            }
        }
    }
}
