// The reader: the data of a text, one call each.

ghost use Rattle.std.specs.Prelude.{◌≡◌, ◌<◌, ◌↔◌, [], length, Some, None, IfOk, IfErr, IfSome, IfNone, IsTrue};
ghost use Rattle.base.specs.WellFormedData.{WellFormed};
ghost use Rattle.front_reader.specs.Gaps.{Gap};
ghost use Rattle.front_reader.specs.bridge.Turns.{IsLater};
ghost use Rattle.front_reader.specs.Answers.{IsRead, IsEnded, IsReaderStopped};
ghost use Rattle.front_reader.specs.Readers.{first_place, MayBeRead};

use crate::cursor::Cursor;
use crate::gap::{Skipped, skip};
use crate::step::read;
use base::{Datum, Names, Origin, Place, Refusal, Stop};
use std::alloc::Global;
use std::marker::Model;

/// A reader of a text: it gives the data of the text in order (ISO/IEC 13816:2007, 6).
#[derive(Drop)]
pub struct Reader<'a> {
    rest: &'a [u8],
    place: Place,
    stop: Option<Refusal>,
}

impl<'a> Model for Reader<'a> {
    ghost use Rattle.front_reader.specs.Readers.{ReaderState, PlacesFit};

    ghost Value = { ReaderState };

    ghost view = { λ r. record { rest = r.rest.now; place = r.place; stop = r.stop } };

    ghost invariant = { λ r. PlacesFit r.place r.rest.now };
}

impl<'a> Reader<'a> {
    /// A reader of this text. Takes no memory. A file has at most 1,048,576 bytes.
    pub fn new(text: &'a [u8], origin: Origin) -> Reader<'a>
        requires { MayBeRead origin text.now }
        ensures { result ≡ record { rest = text.now; place = first_place origin; stop = None } }
    {
        let place = match origin {
            Origin::Prelude => Place { line: 0, column: 0 },
            Origin::File => Place { line: 1, column: 1 },
        };
        Reader {
            rest: text,
            place,
            stop: None,
        }
    }

    /// The next datum, in form and with its names in the table; the reader has then consumed exactly its
    /// spelling and the blanks and comments before it. None exactly where only blanks and closed comments are left. A refusal comes exactly
    /// at the first stop of the text, and from then on again. After `NoMemory` the reader stands
    /// where it was. Names may have been added, and those that were there keep their numbers.
    pub fn next(&mut self, alloc: Global, names: &mut Names) -> Result<Option<Datum>, Stop>
        ensures names { IsLater names.old names.new }
        ensures read { IfOk result (λ o. IfSome o (IsRead names.new self.old self.new)) }
        ensures good { IfOk result (λ o. IfSome o (WellFormed (length names.new))) }
        ensures ended { IfOk result (λ o. IfNone o (IsEnded self.old self.new)) }
        ensures refused { IfErr result (IsReaderStopped self.old self.new) }
    {
        let _ = names.len();
        if let Some(refusal) = self.stop {
            return Err(Stop::Refused(refusal));
        }
        let cursor = Cursor {
            rest: self.rest,
            place: self.place,
        };
        match read(alloc, names, cursor) {
            Ok(Some((behind, datum))) => {
                self.rest = behind.rest;
                self.place = behind.place;
                Ok(Some(datum))
            }
            Ok(None) => Ok(None),
            Err(Stop::Refused(refusal)) => {
                self.stop = Some(refusal);
                Err(Stop::Refused(refusal))
            }
            Err(Stop::NoMemory) => Err(Stop::NoMemory),
        }
    }

    /// Whether only blanks and closed comments are left. Takes no memory.
    pub fn last(&self) -> bool
        ensures { IsTrue result ↔ Gap self.now.rest [] }
    {
        match skip(self.rest) {
            Skipped::Ends(n) => n == self.rest.len(),
            Skipped::OpenFrom(_) => false,
        }
    }
}
