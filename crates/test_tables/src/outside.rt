// Sources, sinks and shelves in memory: those whose listed calls fail, and those that never fail.

use base::{
    Bytes, CallList, Failed, MemShelf, MemSink, MemSource, Shelf, Sink, Source, SureShelf,
    SureSink, SureSource,
};
use test_rows::RowAnswer;

// The bytes that a read can ask for.
const ROOM: usize = 8;

/// What is made, which of its calls fail, what it holds or how much it has room for, and its calls with
/// `|` between them, as in `source 0,2 abc: 2|2`. A read of N bytes answers how many there were and then
/// the N bytes of the buffer, which has dots in it at first.
pub fn answer_row(got: &mut RowAnswer, line: &str) -> Option<()> {
    let (made, calls) = line.split_once(": ")?;
    let (kind, made) = made.split_once(' ')?;
    let (fails, held) = made.split_once(' ')?;
    match kind {
        "source" => put_source(got, fails, held, calls),
        "sure-source" => put_sure_source(got, held, calls),
        "sink" => put_sink(got, fails, held, calls),
        "sure-sink" => put_sure_sink(got, held, calls),
        "shelf" => put_shelf(got, fails, held, calls),
        "sure-shelf" => put_sure_shelf(got, held, calls),
        _ => None,
    }
}

fn put_source(got: &mut RowAnswer, fails: &str, held: &str, calls: &str) -> Option<()> {
    let held = bytes(got, held)?;
    let Some(fails) = call_list(got, fails) else {
        drop(held);
        return None;
    };
    let mut source = MemSource::new(held, fails);
    let answered = reads(got, &mut source, calls);
    drop(source);
    answered
}

fn put_sure_source(got: &mut RowAnswer, held: &str, calls: &str) -> Option<()> {
    let mut source = SureSource::new(bytes(got, held)?);
    let answered = reads(got, &mut source, calls);
    drop(source);
    answered
}

// A shelf with one file, whose name is `f`.
fn put_shelf(got: &mut RowAnswer, fails: &str, held: &str, calls: &str) -> Option<()> {
    let name = bytes(got, "f")?;
    let Some(held) = bytes(got, held) else {
        drop(name);
        return None;
    };
    let Some(fails) = call_list(got, fails) else {
        drop(name);
        drop(held);
        return None;
    };
    let mut shelf = MemShelf::new(name, held, fails);
    let answered = reads_at(got, &mut shelf, calls);
    drop(shelf);
    answered
}

fn put_sure_shelf(got: &mut RowAnswer, held: &str, calls: &str) -> Option<()> {
    let mut shelf = SureShelf::new(bytes(got, held)?);
    let answered = reads_at(got, &mut shelf, calls);
    drop(shelf);
    answered
}

// A sink with room for so many bytes.
fn put_sink(got: &mut RowAnswer, fails: &str, room: &str, calls: &str) -> Option<()> {
    let room = room.parse().ok()?;
    let fails = call_list(got, fails)?;
    let mut sink = got.kept(MemSink::new(got.alloc, room, fails))?;
    writes(got, &mut sink, calls);
    got.put_bytes(sink.bytes());
    drop(sink);
    Some(())
}

fn put_sure_sink(got: &mut RowAnswer, room: &str, calls: &str) -> Option<()> {
    let mut sink = got.kept(SureSink::new(got.alloc, room.parse().ok()?))?;
    writes(got, &mut sink, calls);
    got.put_bytes(sink.bytes());
    drop(sink);
    Some(())
}

fn bytes(got: &mut RowAnswer, text: &str) -> Option<Bytes> {
    got.kept(Bytes::from_slice(got.alloc, text.as_bytes()))
}

// Numbers of calls with commas between them; `-` is none.
fn call_list(got: &mut RowAnswer, text: &str) -> Option<CallList> {
    let mut calls = CallList::new(got.alloc);
    if text == "-" {
        return Some(calls);
    }
    if add_calls(got, &mut calls, text).is_none() {
        drop(calls);
        return None;
    }
    Some(calls)
}

fn add_calls(got: &mut RowAnswer, calls: &mut CallList, text: &str) -> Option<()> {
    for number in text.split(',') {
        got.add(calls, number.parse().ok()?);
    }
    Some(())
}

// Reads, each of so many bytes.
fn reads<S: Source>(got: &mut RowAnswer, source: &mut S, calls: &str) -> Option<()> {
    let mut buffer = [b'.'; ROOM];
    for call in calls.split('|') {
        let part = buffer.get_mut(..call.parse().ok()?)?;
        let answer = source.read(part);
        put_read(got, answer, part);
    }
    Some(())
}

// Reads of a shelf.
fn reads_at<S: Shelf>(got: &mut RowAnswer, shelf: &mut S, calls: &str) -> Option<()> {
    let mut buffer = [b'.'; ROOM];
    for call in calls.split('|') {
        let (name, call) = call.split_once(' ')?;
        read_at(got, shelf, &mut buffer, name, call)?;
    }
    Some(())
}

// A read of that name, from a place on, of so many bytes.
fn read_at<S: Shelf>(
    got: &mut RowAnswer,
    shelf: &mut S,
    buffer: &mut [u8],
    name: &str,
    call: &str,
) -> Option<()> {
    let (at, count) = call.split_once(' ')?;
    let at = at.parse().ok()?;
    let part = buffer.get_mut(..count.parse().ok()?)?;
    let answer = shelf.read(name, at, part);
    put_read(got, answer, part);
    Some(())
}

// What a read answers, and the bytes that it asked for.
fn put_read(got: &mut RowAnswer, answer: Result<usize, Failed>, part: &[u8]) {
    put_count(got, answer);
    got.put(" ");
    got.put_bytes(part);
    got.put("|");
}

// Writes, each of one piece.
fn writes<S: Sink>(got: &mut RowAnswer, sink: &mut S, calls: &str) {
    for call in calls.split('|') {
        put_count(got, sink.write(call.as_bytes()));
        got.put("|");
    }
}

// How many bytes were read or written.
fn put_count(got: &mut RowAnswer, answer: Result<usize, Failed>) {
    match answer {
        Ok(count) => got.put(count),
        Err(Failed) => got.put("failed"),
    }
}
