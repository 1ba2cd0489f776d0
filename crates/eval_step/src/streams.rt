// The primitives that read and write the standard streams.

ghost use Rattle.std.specs.Prelude.{◌≡◌, true, ℕ, pos, List, [], ◌∷◌, Some, slice_get, IfOk, OnOk};
ghost use Rattle.lang_meaning.specs.Values.{truth};
ghost use Rattle.lang_meaning.specs.declared.primitive.Primitive.TheVariants as p;
ghost use Rattle.lang_meaning.specs.Primitives.{as_stream, as_character};
ghost use Rattle.lang_meaning.specs.Classes.{fetch};
ghost use Rattle.eval_store.specs.Words.{value_of_word, object_of};
ghost use Rattle.eval_store.specs.declared.word.Word.TheVariants as word;
ghost use Rattle.eval_store.specs.View.{Beside, state_of};
ghost use Rattle.eval_primitives.specs.Groups.{stream_of};
ghost use Rattle.eval_state.specs.Frames.{last_of};
ghost use Rattle.eval_state.specs.View.{top, dynamic_context};
ghost use Rattle.eval_step.specs.Runs.{RunsAs, Runs};
ghost use Rattle.eval_state.specs.Computing.{computed};
ghost use Rattle.eval_step.specs.Streams.{IsStreamed, IsPrinted, IsStream, IsCharacter, reads, is_fed};

use crate::evaluator::Evaluator;
use base::NoMemory;
use eval_primitives::{Answer, Stream};
use eval_state::computing::tell;
use eval_state::situation::DynamicLinks;
use eval_store::{Object, Store, Word};
use lang_meaning::ClassId;

// The classes that are expected of arguments.
const CHARACTER: ClassId = 5;

const STREAM: ClassId = 14;

// The byte that ends a line.
const LINE_END: u8 = 10;

impl<'p> Evaluator<'p> {
    /// A primitive of the streams computes with the last operands, which go. What it reads is there.
    pub fn stream(
        &mut self,
        which: Stream,
        count: usize,
        level: u64,
        around: DynamicLinks,
    ) -> Result<(), NoMemory>
        requires { reads (stream_of which) (last_of count self.old.machine.operands.items) ≡ true → is_fed self.old ≡ true }
        ensures { OnOk result (RunsAs self.old self.new count (λ names s. computed s (stream_of which) (top names self.old.machine count) level (dynamic_context names self.old.machine around))) }
    {
        let answer = self.stream_answer(which, count)?;
        self.machine.drop_operands(count);
        tell(&mut self.machine, answer, level, around)
    }

    // What it answers; nil where it takes another number of arguments.
    fn stream_answer(&mut self, which: Stream, count: usize) -> Result<Answer, NoMemory>
        requires { reads (stream_of which) (last_of count self.old.machine.operands.items) ≡ true → is_fed self.old ≡ true }
        ensures { IfOk result (IsStreamed self.old self.new (stream_of which) (last_of count self.old.machine.operands.items)) }
    {
        match which {
            Stream::PutChar => self.put_last(count),
            other => {
                if self.machine.held_operands(count) == 0 {
                    Ok(self.without_arguments(other))
                } else {
                    Ok(Answer::Gives(Word::Nil))
                }
            }
        }
    }

    // What one answers that takes no arguments.
    fn without_arguments(&mut self, which: Stream) -> Answer
        requires { reads (stream_of which) [] ≡ true → is_fed self.old ≡ true }
        ensures { IsStreamed self.old self.new (stream_of which) [] result }
    {
        match which {
            Stream::PutChar => Answer::Gives(Word::Nil),
            Stream::IsFreshLine => self.fresh_line(),
            Stream::GetByte => self.take_byte(),
            Stream::PeekByte => self.peek_byte(),
        }
    }

    // A character is put, where the last operands are a stream and a character.
    fn put_last(&mut self, count: usize) -> Result<Answer, NoMemory>
        ensures { IfOk result (IsStreamed self.old self.new p.PutChar (last_of count self.old.machine.operands.items)) }
    {
        let first = self.machine.operands.len().saturating_sub(count);
        match &self.machine.operands[first..] {
            [stream, word] => {
                let (stream, word) = (*stream, *word);
                self.put(stream, word)
            }
            _ => Ok(Answer::Gives(Word::Nil)),
        }
    }

    // A character is put on the standard output.
    fn put(&mut self, stream: Word, word: Word) -> Result<Answer, NoMemory>
        ensures { IfOk result (IsStreamed self.old self.new p.PutChar (stream ∷ word ∷ [])) }
    {
        match is_output(&self.machine.store, stream) {
            None => Ok(Answer::DomainError(stream, STREAM)),
            Some(is_output) => self.put_on(is_output, stream, word),
        }
    }

    // A value is put on a stream, which is the standard output or not.
    fn put_on(&mut self, is_output: bool, stream: Word, word: Word) -> Result<Answer, NoMemory>
        requires { IsStream self.old.machine stream is_output }
        ensures { IfOk result (IsStreamed self.old self.new p.PutChar (stream ∷ word ∷ [])) }
    {
        match character_of(word) {
            None => Ok(Answer::DomainError(word, CHARACTER)),
            Some(code) => self.put_byte(is_output, stream, word, code),
        }
    }

    // A character is put on a stream, which is the standard output or not.
    #[tactic(auto, using(crate::proofs::Streaming::put_on_input))]
    fn put_byte(
        &mut self,
        is_output: bool,
        stream: Word,
        word: Word,
        code: u8,
    ) -> Result<Answer, NoMemory>
        requires stream { IsStream self.old.machine stream is_output }
        requires character { IsCharacter word code }
        ensures { IfOk result (IsStreamed self.old self.new p.PutChar (stream ∷ word ∷ [])) }
    {
        if is_output {
            self.print(code)?;
            Ok(Answer::Gives(Word::Nil))
        } else {
            Ok(Answer::DomainError(stream, STREAM))
        }
    }

    // Whether nothing was put, or the last byte put ended a line.
    #[tactic(auto, using(crate::proofs::Streaming::fresh_told))]
    fn fresh_line(&self) -> Answer
        ensures { IsStreamed self.now self.now p.IsFreshLine [] result }
    {
        Answer::Gives(truth(self.at_start))
    }

    // The next byte is taken; -1 where none is left.
    fn take_byte(&mut self) -> Answer
        requires { is_fed self.old ≡ true }
        ensures { IsStreamed self.old self.new p.GetByte [] result }
    {
        match self.next_byte() {
            Some(byte) => {
                self.taken += 1;
                Answer::Gives(byte_word(byte))
            }
            None => Answer::Gives(Word::Integer(-1)),
        }
    }

    // The next byte, which stays; -1 where none is left.
    fn peek_byte(&self) -> Answer
        requires { is_fed self.now ≡ true }
        ensures { IsStreamed self.now self.now p.PeekByte [] result }
    {
        match self.next_byte() {
            Some(byte) => Answer::Gives(byte_word(byte)),
            None => Answer::Gives(Word::Integer(-1)),
        }
    }

    // The next byte, if one is left.
    fn next_byte(&self) -> Option<u8>
        ensures { result ≡ slice_get self.now.ahead.items self.now.taken }
    {
        self.ahead.get(self.taken).copied()
    }

    // A byte more was printed.
    fn print(&mut self, byte: u8) -> Result<(), NoMemory>
        ensures { OnOk result (IsPrinted self.old self.new byte) }
    {
        self.printed.push(byte)?;
        self.at_start = byte == LINE_END;
        Ok(())
    }
}

// Whether a stream is the standard output; none where a value is no stream.
fn is_output(store: &Store<'_>, word: Word) -> Option<bool>
    ensures { (names : List (List ℕ)) (b : Beside) → as_stream (fetch (state_of names store.now b) (value_of_word names word)) ≡ result }
{
    match store.fetch(word) {
        Some(object) => side_of(object),
        None => None,
    }
}

// The same of an object.
fn side_of(object: &Object<'_>) -> Option<bool>
    ensures { (names : List (List ℕ)) → as_stream (Some (object_of names object.now)) ≡ result }
{
    match object {
        Object::InputStream => Some(false),
        Object::OutputStream => Some(true),
        Object::Cons(_, _)
        | Object::Text(_)
        | Object::Vector(_)
        | Object::Instance(_)
        | Object::Function(_)
        | Object::Closure(_, _)
        | Object::Generic(_)
        | Object::Class(_)
        | Object::FreshSymbol(_) => None,
    }
}

// A byte as an integer.
fn byte_word(byte: u8) -> Word
    ensures { result ≡ word.Integer (pos byte) }
{
    Word::Integer(i32::from(byte))
}

// The value of a truth.
fn truth(holds: bool) -> Word
    ensures { (names : List (List ℕ)) → value_of_word names result ≡ truth holds }
{
    if holds { Word::True } else { Word::Nil }
}

// The character that a word is.
fn character_of(word: Word) -> Option<u8>
    ensures { (names : List (List ℕ)) → as_character (value_of_word names word) ≡ result }
{
    match word {
        Word::Character(code) => Some(code),
        _ => None,
    }
}
