//! Faults that end a server of a folder early.
ghost use Rattle.std.specs.Prelude.{◌≡◌, ◌≢◌, ◌⊎◌, OnOk};
ghost use Rattle.std.specs.IoError.{error_kind};
ghost use Rattle.std.specs.Io.KnownBytes.{Appends};
ghost use Rattle.flash_folder.specs.Fault.{fault_line, status_of, word_of};

use std::io::{ErrorKind, Write};
use std::{fmt, io};

/// The exit status after success.
pub const DONE: u8 = 0;

/// The exit status after a fault.
pub const FAULT: u8 = 3;

/// The fault that ends a server of a folder early. It prints as a line for standard error.
#[derive(Clone, Copy, Debug, PartialEq, Eq)]
pub enum Fault {
    /// The server cannot listen on the port.
    Listen,

    /// No connection can be accepted.
    Accept,

    /// The program's own end of a connection failed.
    Connect,

    /// The folder cannot be read.
    Folder,

    /// The output could not be written.
    Output,

    /// The allocator refused memory.
    Memory,
}

impl Fault {
    /// The fault of an error: out of memory, or `otherwise`.
    pub fn of(error: &io::Error, otherwise: Fault) -> Fault
        ensures memory { error_kind error.now ≡ ErrorKind.OutOfMemory → result ≡ Fault.Memory }
        ensures otherwise { error_kind error.now ≢ ErrorKind.OutOfMemory → result ≡ otherwise }
        ensures either { (result ≡ Fault.Memory) ⊎ (result ≡ otherwise) }
    {
        if error.kind() == ErrorKind::OutOfMemory {
            Fault::Memory
        } else {
            otherwise
        }
    }

    // The word for the fault in its printed text.
    fn word(self) -> &'static str
        ensures { result.now ≡ word_of self }
    {
        match self {
            Fault::Listen => "listen",
            Fault::Accept => "accept",
            Fault::Connect => "connect",
            Fault::Folder => "folder",
            Fault::Output => "output",
            Fault::Memory => "memory",
        }
    }
}

impl fmt::Display for Fault {
    ghost use Rattle.std.specs.Prelude.{Some};
    ghost use Rattle.flash_folder.specs.Fault.{fault_text};

    ghost output = { λ fault. Some (fault_text fault) };

    fn fmt<W: fmt::Write>(&self, f: &mut fmt::Formatter<W>) -> fmt::Result {
        let word = self.word();
        write!(f, "fault: {word}")
    }
}

/// The exit status of a program. Writes its fault, if any, to `errors`; an error of that write is
/// ignored.
pub fn ended<E: Write>(done: Result<(), Fault>, errors: &mut E) -> u8
    ensures status { result ≡ status_of done }
    ensures silent { OnOk done (errors.new ≡ errors.old) }
{
    match done {
        Ok(()) => DONE,
        Err(fault) => {
            let _ = tell(fault, errors);
            FAULT
        }
    }
}

// Writes the line that reports a fault.
fn tell<E: Write>(fault: Fault, errors: &mut E) -> io::Result<()>
    ensures { OnOk result (Appends (E.contents errors.old) (E.contents errors.new)
        (fault_line fault)) }
{
    writeln!(errors, "{fault}")
}
