// How each action judges its text.

ghost use Rattle.std.specs.Prelude.{◌≡◌};
ghost use Rattle.top_main.specs.Theorem.{mode_of};

use front_files::Mode;
use top_command::Action;

/// The mode in which an action judges its text.
pub(crate) fn mode_of(action: Action) -> Mode
    ensures { result ≡ mode_of action }
{
    match action {
        Action::Show => Mode::Show,
        Action::Run => Mode::Run,
        Action::Check => Mode::Run,
        Action::Build => Mode::Run,
        Action::Exec => Mode::Run,
        Action::Plain => Mode::Run,
        Action::Make(_) => Mode::Run,
    }
}
