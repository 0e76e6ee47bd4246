//! The storage of a site's files while it is served.
ghost use Rattle.std.specs.Prelude.{Bool, true, false};

/// Whether a service gives the event loop only worlds of files in memory.
pub trait Storage {
    const IN_MEMORY: bool;

    ghost IN_MEMORY: { Bool };
}

/// The files are in memory, so the store of each world is honest.
pub struct InMemory;

impl Storage for InMemory {
    const IN_MEMORY: bool = true;

    ghost IN_MEMORY = { true };
}

/// The files of each world are in memory or in the folder.
pub struct Anywhere;

impl Storage for Anywhere {
    const IN_MEMORY: bool = false;

    ghost IN_MEMORY = { false };
}
