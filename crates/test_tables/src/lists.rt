// Lists of bytes, of command words and of fresh symbols: what goes in and what stands there.

use crate::fresh::fresh_symbols;
use base::{Bytes, FreshList, Words};
use test_rows::RowAnswer;

/// `bytes` with calls of a list of bytes, `words` with the words of a list, or `fresh` with how many
/// fresh symbols are pushed and how many of them stay in the cut; the parts stand with `|` between them.
/// The answer is what the calls answer, and then the length and what stands there.
pub fn answer_row(got: &mut RowAnswer, line: &str) -> Option<()> {
    let (kind, parts) = line.split_once(' ')?;
    match kind {
        "bytes" => put_bytes(got, parts),
        "words" => put_words(got, parts),
        "fresh" => put_fresh(got, parts),
        _ => None,
    }
}

// A list of bytes through its calls.
fn put_bytes(got: &mut RowAnswer, calls: &str) -> Option<()> {
    let mut bytes = Bytes::new(got.alloc);
    let answered = put_calls(got, &mut bytes, calls);
    got.put(bytes.len());
    got.put(":");
    got.put_bytes(bytes.as_slice());
    drop(bytes);
    answered
}

fn put_calls(got: &mut RowAnswer, bytes: &mut Bytes, calls: &str) -> Option<()> {
    for call in calls.split('|') {
        let (name, argument) = call.split_once(' ')?;
        match name {
            "append" => got.add_bytes(bytes, argument.as_bytes()),
            _ => put_call(got, bytes, name, argument.parse().ok()?)?,
        }
    }
    Some(())
}

// A call with a number.
fn put_call(got: &mut RowAnswer, bytes: &mut Bytes, name: &str, number: usize) -> Option<()> {
    match name {
        "push" => got.add(bytes, u8::try_from(number).ok()?),
        "cut" => cut(bytes, number)?,
        "get" => put_byte(got, bytes.get(number)),
        _ => return None,
    }
    Some(())
}

fn cut(bytes: &mut Bytes, len: usize) -> Option<()> {
    if len > bytes.len() {
        return None;
    }
    bytes.cut(len);
    Some(())
}

fn put_byte(got: &mut RowAnswer, byte: Option<&u8>) {
    match byte {
        Some(byte) => got.put_byte(*byte),
        None => got.put("none"),
    }
    got.put("|");
}

// A list of words, and what stands behind its end.
fn put_words(got: &mut RowAnswer, parts: &str) -> Option<()> {
    let mut words = Words::new(got.alloc);
    let added = add_words(got, &mut words, parts);
    got.put(words.len());
    for at in 0..=words.len() {
        got.put(" ");
        got.put(words.get(at).unwrap_or("none"));
    }
    drop(words);
    added
}

fn add_words(got: &mut RowAnswer, words: &mut Words, parts: &str) -> Option<()> {
    for word in parts.split('|') {
        got.kept(words.push(word))?;
    }
    Some(())
}

// A list of fresh symbols that is cut.
fn put_fresh(got: &mut RowAnswer, parts: &str) -> Option<()> {
    let (pushed, kept) = parts.split_once('|')?;
    let kept = kept.parse().ok()?;
    let mut fresh = fresh_symbols(got, pushed.parse().ok()?);
    let answered = put_cut(got, &mut fresh, kept);
    drop(fresh);
    answered
}

fn put_cut(got: &mut RowAnswer, fresh: &mut FreshList, kept: usize) -> Option<()> {
    if kept > fresh.len() {
        return None;
    }
    fresh.cut(kept);
    got.put(fresh.len());
    for symbol in fresh.as_slice() {
        got.put(" ");
        got.put_debug(symbol);
    }
    Some(())
}
