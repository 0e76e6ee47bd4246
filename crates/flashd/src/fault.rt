//! The faults that end the program early.
ghost use Rattle.std.specs.Prelude.{◌≡◌, ◌≢◌};
ghost use Rattle.std.specs.IoError.{error_kind};
ghost use Rattle.flashd.specs.declared.fault.Fault.TheVariants.{OutOfMemory};

use std::alloc::AllocError;
use std::io::ErrorKind;
use std::net::SocketAddr;
use std::{fmt, io};

/// A step of the program, and what it works on. It prints as the end of a sentence.
#[derive(Clone, Copy, Debug)]
pub enum Step<'a> {
    /// To read the words of the command line.
    ReadWords,

    /// To print help, an error of the command line, or the address.
    Print,

    /// To open the access log at this path.
    OpenLog(&'a str),

    /// To read the site in this folder.
    Read(&'a str),

    /// To read the site in this folder into memory.
    ReadIntoMemory(&'a str),

    /// To listen on this address.
    Listen(SocketAddr),

    /// To wait for clients and for their bytes.
    Poll,
}

impl fmt::Display for Step<'_> {
    ghost use Rattle.std.specs.Prelude.{Some};
    ghost use Rattle.flashd.specs.Faults.{step_text};

    ghost output = { λ step. Some (step_text step) };

    fn fmt<W: fmt::Write>(&self, f: &mut fmt::Formatter<W>) -> fmt::Result {
        match self {
            Step::ReadWords => write!(f, "read the arguments"),
            Step::Print => write!(f, "write the output"),
            Step::OpenLog(path) => write!(f, "open the log {path}"),
            Step::Read(root) => write!(f, "read {root}"),
            Step::ReadIntoMemory(root) => write!(f, "read {root} into memory"),
            Step::Listen(address) => write!(f, "listen on {address}"),
            Step::Poll => write!(f, "poll the sockets"),
        }
    }
}

/// The reason for which the program ends early. It prints as a line without its line feed.
#[derive(Clone, Copy, Debug)]
pub enum Fault<'a> {
    /// The allocator refused memory.
    OutOfMemory,

    /// A step failed for another reason.
    Failed { step: Step<'a>, error: io::Error },
}

impl<'a> Fault<'a> {
    /// The fault of a step that failed with this error.
    pub fn of(step: Step<'a>, error: io::Error) -> Fault<'a>
        ensures memory { error_kind error ≡ ErrorKind.OutOfMemory → result ≡ Fault.OutOfMemory }
        ensures other { error_kind error ≢ ErrorKind.OutOfMemory
            → result ≡ Fault.Failed step.entry error }
    {
        if error.kind() == ErrorKind::OutOfMemory {
            Fault::OutOfMemory
        } else {
            Fault::Failed { step, error }
        }
    }
}

impl From<AllocError> for Fault<'_> {
    ghost from_gives = { λ _ fault. fault ≡ OutOfMemory };

    fn from(_error: AllocError) -> Self {
        Fault::OutOfMemory
    }
}

impl fmt::Display for Fault<'_> {
    ghost use Rattle.flashd.specs.Faults.{fault_text};

    ghost output = { fault_text };

    fn fmt<W: fmt::Write>(&self, f: &mut fmt::Formatter<W>) -> fmt::Result {
        match self {
            Fault::OutOfMemory => write!(f, "out of memory"),
            Fault::Failed { step, error } => write!(f, "cannot {step}: {error}"),
        }
    }
}
