// The files of the system, and its standard input, as a shelf.

ghost use Rattle.std.specs.Prelude.{◌≡◌, ◌≤◌, length, None, IfOk};

use crate::fault_count::FaultCount;
use base::{Failed, Shelf};
use std::alloc::Global;
use std::io::{Read, Seek, SeekFrom};
use std::rt::Files;
use std::{fs, io};

/// The name of the standard input among files.
const STANDARD_INPUT: &str = "-";

/// The files that a runtime reaches, each under its path, and the standard input under the name `-`. It tells no
/// content. The file that was asked for last stays open, and is read on from where the last call ended, so a pipe is
/// read too; a call that goes elsewhere seeks. One that is missing, or where a call goes elsewhere and it cannot be
/// sought in, is a fault, behind which it is opened anew. The standard input is read on alone: a call that goes
/// elsewhere is a fault.
#[derive(Drop)]
pub struct FileShelf<'a, R: Files, I: Read + Drop> {
    files: &'a R,
    alloc: Global,
    input: I,
    input_at: u64,
    last: Option<OpenFile<R::File>>,
    faults: FaultCount,
}

// A file that is open under its name, and the place from which it is read on. Where memory for the name was wanting, it
// has none, and is opened anew by the next call.
#[derive(Drop)]
struct OpenFile<F: Drop> {
    name: Option<String>,
    file: F,
    at: u64,
}

impl<F: Drop> OpenFile<F> {
    fn is_named(&self, name: &str) -> bool {
        match &self.name {
            Some(own) => own.as_str() == name,
            None => false,
        }
    }
}

impl<'a, R: Files, I: Read + Drop> FileShelf<'a, R, I> {
    /// The files of that runtime and its standard input; no call has failed yet, and no file is open.
    pub fn new(files: &'a R, input: I, alloc: Global) -> FileShelf<'a, R, I>
        ensures { result.faults.raised ≡ 0 }
    {
        FileShelf {
            files,
            alloc,
            input,
            input_at: 0,
            last: None,
            faults: FaultCount::new(),
        }
    }

    // Reads once from the standard input, if the place is the one to which it was read; else it fails.
    fn read_input(&mut self, at: u64, buf: &mut [u8]) -> io::Result<usize>
        ensures count { self.new.faults ≡ self.old.faults }
        ensures bound { IfOk result (λ n. n ≤ length buf.old) }
    {
        if self.input_at != at {
            return Err(io::Error::from(io::ErrorKind::NotSeekable));
        }
        let count = self.input.read(buf)?;
        self.input_at = at.saturating_add(count as u64);
        Ok(count)
    }

    // Reads once from that place of the named file, which then stays open.
    fn read_at(&mut self, name: &str, at: u64, buf: &mut [u8]) -> io::Result<usize>
        ensures count { self.new.faults ≡ self.old.faults }
        ensures bound { IfOk result (λ n. n ≤ length buf.old) }
    {
        if name == STANDARD_INPUT {
            return self.read_input(at, buf);
        }
        let mut open = match self.last.take() {
            Some(open) if open.is_named(name) => open,
            other => {
                drop(other);
                OpenFile {
                    name: String::from_str(self.alloc, name).ok(),
                    file: fs::open(self.files, name)?,
                    at: 0,
                }
            }
        };
        if open.at != at {
            open.file.seek(SeekFrom::Start(at))?;
        }
        let count = open.file.read(buf)?;
        open.at = at.saturating_add(count as u64);
        self.last = Some(open);
        Ok(count)
    }
}

impl<'a, R: Files, I: Read + Drop> Shelf for FileShelf<'a, R, I> {
    ghost holds = { λ _ _. None };

    ghost faults = { λ s. s.faults.raised };

    fn read(&mut self, name: &str, at: u64, buf: &mut [u8]) -> Result<usize, Failed> {
        match self.read_at(name, at, buf) {
            Ok(count) => Ok(count),
            Err(_) => Err(self.faults.raise()),
        }
    }
}
