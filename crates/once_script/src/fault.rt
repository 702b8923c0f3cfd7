//! Why a program gives up, and with which status.
ghost use Rattle.std.specs.Prelude.{◌≡◌, Some};

use std::alloc::{AllocError, AllocFailed};
use std::error::Error;
use std::{fmt, io};

/// Why the program gave up.
#[derive(Clone, Copy, Debug, PartialEq, Eq)]
pub enum Fault {
    /// The line with this number is the first that cannot be read.
    Unreadable(u64),
    /// A read or a write failed.
    Io,
    /// Memory was refused.
    Memory,
}

impl Fault {
    ghost use Rattle.once_script.specs.Fault.{status_of};

    /// The status that the process ends with.
    ///
    /// ```
    /// Err(fault) => {
    ///     let _ = rt.eprintln(fault);
    ///     ExitCode::from(fault.status())
    /// }
    /// ```
    pub fn status(&self) -> u8
        ensures { result ≡ status_of self.now }
    {
        match self {
            Fault::Unreadable(_) => 2,
            Fault::Io => 3,
            Fault::Memory => 4,
        }
    }
}

impl fmt::Display for Fault {
    ghost use Rattle.once_script.specs.Fault.{message};

    ghost output = { λ fault. Some (message fault) };

    fn fmt<W: fmt::Write>(&self, f: &mut fmt::Formatter<W>) -> fmt::Result {
        match self {
            Fault::Unreadable(line) => write!(f, "once_replay: line {line} is unreadable"),
            Fault::Io => write!(f, "once_replay: input or output failed"),
            Fault::Memory => write!(f, "once_replay: out of memory"),
        }
    }
}

impl Error for Fault {}

impl From<AllocError> for Fault {
    ghost use Rattle.once_script.specs.declared.fault.Fault.TheVariants.{Memory};

    ghost from_gives = { λ _ fault. fault ≡ Memory };

    fn from(_error: AllocError) -> Fault {
        Fault::Memory
    }
}

impl<T: Drop> From<AllocFailed<T>> for Fault {
    ghost use Rattle.once_script.specs.declared.fault.Fault.TheVariants.{Memory};

    ghost from_gives = { λ _ fault. fault ≡ Memory };

    fn from(_error: AllocFailed<T>) -> Fault {
        Fault::Memory
    }
}

impl From<io::Error> for Fault {
    ghost use Rattle.once_script.specs.Fault.{Reports};

    ghost from_gives = { Reports };

    fn from(error: io::Error) -> Fault {
        if error.kind() == io::ErrorKind::OutOfMemory {
            Fault::Memory
        } else {
            Fault::Io
        }
    }
}
