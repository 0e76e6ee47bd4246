//! The reasons for which a program ends early.
ghost use Rattle.std.specs.Prelude.{◌≡◌, ◌⊎◌, IfErr, OnOk};
ghost use Rattle.std.specs.Io.KnownBytes.{Appends};
ghost use Rattle.iolite.specs.Failure.{failure_line, status_of};

use std::io::Write;
use std::{fmt, io};

/// The reason for which a program ends early. It prints as a line for standard error.
#[derive(Clone, Copy, Debug, PartialEq, Eq)]
pub enum Failure {
    /// The script is too long or not UTF-8.
    BadScript,

    /// This line of the script, counted from 1, is not a valid command.
    BadLine { number: usize },

    /// The input could not be read.
    Input,

    /// The output could not be written.
    Output,

    /// The allocator refused memory.
    Memory,
}

impl Failure {
    /// The exit status for this failure.
    pub fn status(self) -> u8
        ensures { result ≡ status_of self }
    {
        match self {
            Failure::BadScript | Failure::BadLine { .. } => 2,
            Failure::Input | Failure::Output | Failure::Memory => 3,
        }
    }
}

/// The exit status of a program: 0, or that of its failure. Writes the failure as one line to
/// `errors`; an error of that write is ignored.
pub fn status_after<E: Write>(ended: Result<(), Failure>, errors: &mut E) -> u8
    ensures statuses { (result ≡ 0) ⊎ ((result ≡ 2) ⊎ (result ≡ 3)) }
    ensures ok { OnOk ended (result ≡ 0) }
    ensures failed { IfErr ended (λ failure. result ≡ status_of failure) }
    ensures silent { OnOk ended (errors.new ≡ errors.old) }
{
    match ended {
        Ok(()) => 0,
        Err(failure) => {
            let _ = tell(failure, errors);
            failure.status()
        }
    }
}

// Writes the line for a failure.
fn tell<E: Write>(failure: Failure, errors: &mut E) -> io::Result<()>
    ensures { OnOk result (Appends (E.contents errors.old) (E.contents errors.new)
        (failure_line failure)) }
{
    writeln!(errors, "{failure}")
}

impl fmt::Display for Failure {
    ghost use Rattle.std.specs.Prelude.{Some};
    ghost use Rattle.iolite.specs.Failure.{failure_text};

    ghost output = { λ failure. Some (failure_text failure) };

    fn fmt<W: fmt::Write>(&self, f: &mut fmt::Formatter<W>) -> fmt::Result {
        match self {
            Failure::BadScript => write!(f, "bad script"),
            Failure::BadLine { number } => write!(f, "line {number}: not a command"),
            Failure::Input => write!(f, "fault: input"),
            Failure::Output => write!(f, "fault: output"),
            Failure::Memory => write!(f, "fault: memory"),
        }
    }
}
