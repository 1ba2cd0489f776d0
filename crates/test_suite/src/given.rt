// What a call is given.

use base::{Bytes, CallList, MemShelf, MemSink, MemSource, NoMemory, Words};
use std::alloc::Global;
use std::mem;
use top_main::{Kept, isl_main};

// The name of the one file of the shelf.
const NAME: &str = "f";

// The bytes that an output keeps, and those of an image file.
const ROOM: usize = 4096;

const FILE_ROOM: usize = 4_194_304;

/// The words, the text of the file `f`, or of the file that is built to be it, the input, and which calls of the shelf, the input, the output and the
/// error output fail, counted from 0.
#[derive(Drop)]
pub struct CallInput {
    pub words: Words,
    pub text: Bytes,
    pub is_built: bool,
    pub input: Bytes,
    pub shelf_fails: CallList,
    pub input_fails: CallList,
    pub out_fails: CallList,
    pub err_fails: CallList,
}

impl CallInput {
    /// No word, an empty file, no input, and no call that fails.
    pub fn nothing(alloc: Global) -> CallInput {
        CallInput {
            words: Words::new(alloc),
            text: Bytes::new(alloc),
            is_built: false,
            input: Bytes::new(alloc),
            shelf_fails: CallList::new(alloc),
            input_fails: CallList::new(alloc),
            out_fails: CallList::new(alloc),
            err_fails: CallList::new(alloc),
        }
    }

    /// The call that is given this.
    pub fn call(self, alloc: Global) -> Result<Call, NoMemory> {
        let mut given = self;
        if given.is_built {
            let text = mem::replace(&mut given.text, Bytes::new(alloc));
            given.text = built(alloc, text);
        }
        given.call_with(alloc, ROOM)
    }

    // The call that is given this, where the output keeps so many bytes.
    fn call_with(self, alloc: Global, room: usize) -> Result<Call, NoMemory> {
        let CallInput {
            words,
            text,
            is_built: _,
            input,
            shelf_fails,
            input_fails,
            out_fails,
            err_fails,
        } = self;
        let Ok(outputs) = outputs(alloc, room, out_fails, err_fails) else {
            drop((words, input));
            drop((text, shelf_fails));
            drop(input_fails);
            return Err(NoMemory);
        };
        let Ok(shelf) = shelf_of(alloc, text, shelf_fails) else {
            drop((words, input));
            drop((outputs, input_fails));
            return Err(NoMemory);
        };
        let (out, err) = outputs;
        Ok(Call {
            words,
            shelf,
            input: MemSource::new(input, input_fails),
            out,
            err,
        })
    }
}

// The output, which keeps so many bytes, and the error output.
fn outputs(
    alloc: Global,
    room: usize,
    out_fails: CallList,
    err_fails: CallList,
) -> Result<(MemSink, MemSink), NoMemory> {
    let Ok(out) = MemSink::new(alloc, room, out_fails) else {
        drop(err_fails);
        return Err(NoMemory);
    };
    let Ok(err) = MemSink::new(alloc, ROOM, err_fails) else {
        drop(out);
        return Err(NoMemory);
    };
    Ok((out, err))
}

// What `build` gives of the file of that text; nothing where it does not end well.
fn built(alloc: Global, text: Bytes) -> Bytes {
    let mut given = CallInput::nothing(alloc);
    given.text = text;
    if given.words.push("build").is_err() || given.words.push(NAME).is_err() {
        drop(given);
        return Bytes::new(alloc);
    }
    let Ok(mut call) = given.call_with(alloc, FILE_ROOM) else {
        return Bytes::new(alloc);
    };
    let file = match call.make(alloc) {
        0 => Bytes::from_slice(alloc, call.out.bytes()),
        _ => Ok(Bytes::new(alloc)),
    };
    drop(call);
    match file {
        Ok(file) => file,
        Err(NoMemory) => Bytes::new(alloc),
    }
}

// The shelf with the file of that text.
fn shelf_of(alloc: Global, text: Bytes, fails: CallList) -> Result<MemShelf, NoMemory> {
    let Ok(name) = Bytes::from_slice(alloc, NAME.as_bytes()) else {
        drop((text, fails));
        return Err(NoMemory);
    };
    Ok(MemShelf::new(name, text, fails))
}

/// The words of a call, and its outside.
#[derive(Drop)]
pub struct Call {
    words: Words,
    shelf: MemShelf,
    input: MemSource,
    pub out: MemSink,
    pub err: MemSink,
}

impl Call {
    /// The exit status of the main call, whose image is not kept.
    pub fn make(&mut self, alloc: Global) -> u8 {
        let status = isl_main(
            alloc,
            &self.words,
            &mut self.shelf,
            &mut self.input,
            &mut self.out,
            &mut self.err,
            &mut Kept::new(),
        );
        status.number()
    }
}
