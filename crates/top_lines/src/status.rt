// The statuses that the program ends with, and what it has to tell of them.

ghost use Rattle.std.specs.Prelude.{◌≡◌};
ghost use Rattle.top_lines.specs.Lines.{answer_of_stop, is_checked, number_of, status_of};

use base::{Bytes, ItemList, Place, Refusal, Stop};
use lang_warnings::Fault;
use rv_machine::TrapKind;

/// How a call of the program ended.
#[derive(Clone, Copy)]
pub enum Status {
    /// The program ended with a value, or the image halted, and all that was to be written was; or the
    /// file that was checked is a program; or the image of the program was written.
    Done,
    /// A condition that no handler took ended the program.
    Unhandled,
    /// The words are no command.
    Usage,
    /// The file is outside the profile.
    Refused,
    /// The program asked for more words than were left, or its image has more than the arena.
    ArenaFull,
    /// The run's instructions, or the evaluation's levels or forms, were spent before it ended.
    Budget,
    /// The shelf failed.
    FileFault,
    /// The source failed.
    ReadFault,
    /// A sink failed.
    WriteFault,
    /// Memory was wanting. Only an evaluation, or a run whose condition could not be named, may have written to the
    /// standard output before.
    NoMemory,
    /// The file is no image file.
    BadImage,
    /// The image ran into a trap.
    Trap,
}

impl Status {
    /// The exit status, 0 to 11.
    pub fn number(self) -> u8
        ensures { result ≡ number_of self }
    {
        match self {
            Status::Done => 0,
            Status::Unhandled => 1,
            Status::Usage => 2,
            Status::Refused => 3,
            Status::ArenaFull => 4,
            Status::Budget => 5,
            Status::FileFault => 6,
            Status::ReadFault => 7,
            Status::WriteFault => 8,
            Status::NoMemory => 9,
            Status::BadImage => 10,
            Status::Trap => 11,
        }
    }
}

/// What a form of the file is warned of: its place, the name that it calls, reads or sets, and what is wrong with it.
#[derive(Drop)]
pub struct WarningLine {
    pub place: Place,
    pub name: Bytes,
    pub fault: Fault,
}

/// What the forms of a file are warned of.
pub type WarningLines = ItemList<WarningLine>;

/// A status with what its line tells: the name of the class of a condition, the place of the form that
/// signalled it, or 0:0, and what is told of the condition behind the name; why and where the file is refused, and its text; how many words were asked for, and how many were
/// left; how many instructions were executed, or how many levels there were. `Spent` is the status `Budget`
/// of an evaluation in which as many forms began as may begin. `UnhandledClass` is the status `Unhandled` of an
/// image of which no program is known: the number of the class, and the place of the site where the file has it.
/// Of words that are no command the first that is wrong is told, where one is. Of a trap the kind is told and its address.
/// `Checked` is the status `Done` of a file that is a program, with what its forms are warned of.
#[derive(Drop)]
pub enum CommandAnswer {
    Done,
    Checked(WarningLines),
    Unhandled {
        class: Bytes,
        site: Place,
        told: Bytes,
    },
    UnhandledClass {
        class: u32,
        site: Option<Place>,
    },
    Usage(Option<Bytes>),
    Refused {
        refusal: Refusal,
        text: Bytes,
    },
    ArenaFull {
        asked: u64,
        left: u64,
    },
    Budget(u32),
    Spent,
    FileFault,
    ReadFault,
    WriteFault,
    NoMemory,
    BadImage(rv_image_file::BadImage),
    Trap {
        kind: TrapKind,
        address: u32,
    },
}

impl CommandAnswer {
    /// The answer of a text that is no program.
    pub fn of_stop(text: Bytes, stop: Stop) -> CommandAnswer
        ensures { result ≡ answer_of_stop text stop }
    {
        match stop {
            Stop::Refused(refusal) => CommandAnswer::Refused { refusal, text },
            Stop::NoMemory => {
                drop(text);
                CommandAnswer::NoMemory
            }
        }
    }

    /// Whether it is that of a file that is a program.
    pub fn is_checked(&self) -> bool
        ensures { result ≡ is_checked self.now }
    {
        match self {
            CommandAnswer::Checked(_) => true,
            _ => false,
        }
    }

    /// The status alone.
    pub fn status(&self) -> Status
        ensures { result ≡ status_of self.now }
    {
        match self {
            CommandAnswer::Done | CommandAnswer::Checked(_) => Status::Done,
            CommandAnswer::Unhandled { .. } | CommandAnswer::UnhandledClass { .. } => {
                Status::Unhandled
            }
            CommandAnswer::Usage(_) => Status::Usage,
            CommandAnswer::Refused { .. } => Status::Refused,
            CommandAnswer::ArenaFull { .. } => Status::ArenaFull,
            CommandAnswer::Budget(_) | CommandAnswer::Spent => Status::Budget,
            CommandAnswer::FileFault => Status::FileFault,
            CommandAnswer::ReadFault => Status::ReadFault,
            CommandAnswer::WriteFault => Status::WriteFault,
            CommandAnswer::NoMemory => Status::NoMemory,
            CommandAnswer::BadImage(_) => Status::BadImage,
            CommandAnswer::Trap { .. } => Status::Trap,
        }
    }
}
