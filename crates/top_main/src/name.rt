// What a line calls the text of a command.

ghost use Rattle.std.specs.Prelude.{◌≡◌, option_map};
ghost use Rattle.top_command.specs.Command.{parts_of};
ghost use Rattle.top_main.specs.Theorem.{called as called_by, name_in as name_of_asked};

use top_command::{Action, Command};

/// What a line calls the text of a command: its file, or `make`; nothing where there is no command.
pub(crate) fn name_in(command: &Option<Command>) -> &[u8]
    ensures { result.now ≡ name_of_asked (option_map parts_of command.now) }
{
    match command {
        Some(command) => called(command.action, command.file.as_bytes()),
        None => b"",
    }
}

// The same of a command with this action and this file.
fn called(action: Action, file: &[u8]) -> &[u8]
    ensures { result.now ≡ called_by action file.now }
{
    match action {
        Action::Run => file,
        Action::Show => file,
        Action::Check => file,
        Action::Build => file,
        Action::Exec => file,
        Action::Plain => file,
        Action::Make(_) => b"make",
    }
}
