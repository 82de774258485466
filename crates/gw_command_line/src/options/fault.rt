//! Why words choose nothing.

ghost use Rattle.std.specs.Prelude.{◌≡◌, ◌≢◌};
ghost use Rattle.gw_command_line.specs.declared.options.fault.WordsFault.TheVariants.{CommandLine, Memory};

use std::alloc::AllocError;
use std::io::ErrorKind;

/// Why words choose nothing.
#[derive(Clone, Copy)]
pub enum WordsFault {
    /// The words are no command line of the program.
    CommandLine,
    /// A growth was refused.
    Memory,
}

impl WordsFault {
    /// The fault if the words can't be had: `Memory`, or else a word that is no UTF-8.
    pub fn of_words(kind: ErrorKind) -> WordsFault
        ensures memory { kind ≡ ErrorKind.OutOfMemory → result ≡ Memory }
        ensures other { kind ≢ ErrorKind.OutOfMemory → result ≡ CommandLine }
    {
        match kind {
            ErrorKind::OutOfMemory => WordsFault::Memory,
            _ => WordsFault::CommandLine,
        }
    }
}

impl From<AllocError> for WordsFault {
    ghost from_gives = { λ _ fault. fault ≡ Memory };

    fn from(_refused: AllocError) -> WordsFault {
        WordsFault::Memory
    }
}
