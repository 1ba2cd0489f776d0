// A sink that keeps nothing but whether it was given a byte.

ghost use Rattle.std.specs.Prelude.{◌≡◌, length, IfSome, ◌||◌, ◌==◌, not};
ghost use Rattle.base.specs.Outside.{Took};
ghost use Rattle.top_expansion.specs.Output.{given_unless};

use base::{Failed, Sink};

/// What an expander prints, of which nothing is kept but whether it is any byte.
#[derive(Clone, Copy, Debug, Drop)]
pub(crate) struct Output {
    pub(crate) printed: bool,
}

impl Sink for Output {
    ghost use Rattle.top_expansion.specs.Output.{given_unless};

    ghost given = { λ output. given_unless output.printed };

    ghost writes = { λ _. 0 };

    ghost faults = { λ _. 0 };

    /// Takes all the bytes.
    fn write(&mut self, bytes: &[u8]) -> Result<usize, Failed>
        ensures sure { result ≡ Ok (length bytes.now) }
        ensures told { IfSome (given_unless self.new.printed) (λ after.
            Took (given_unless self.old.printed) 0 (length bytes.now) bytes.now after 0) }
    {
        if !bytes.is_empty() {
            self.printed = true;
        }
        Ok(bytes.len())
    }
}
