// Of some files it is shown what they are: programs that do what is written, or refused. So what is said of files is met.

ghost use Rattle.lang_worked.specs.FileLibrary.{FileBehindLibrary};
ghost use Rattle.lang_worked.specs.FileProgram.{FileIsProgram};
ghost use Rattle.lang_worked.specs.FileRefused.{FileIsRefused, FileIsRefusedBehindLibrary};

/// A file with a function, a block with a cleanup and a condition, behind an empty library, is that program, and does what
/// its comment in `specs/FileProgram.antt` says.
pub fn law_file_is_program()
    ensures { FileIsProgram }
{}

/// A file of two forms, behind an empty library, is refused at its second one.
pub fn law_file_is_refused()
    ensures { FileIsRefused }
{}

/// The same file behind a library of two functions, which it calls, is that program, and does what its comment in
/// `specs/FileLibrary.antt` says.
pub fn law_file_behind_library()
    ensures { FileBehindLibrary }
{}

/// A file that defines a function of that library is refused.
pub fn law_file_is_refused_behind_library()
    ensures { FileIsRefusedBehindLibrary }
{}
