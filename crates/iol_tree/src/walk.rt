//! The names of the files below a folder.
ghost use Rattle.std.specs.Prelude.{◌≡◌, ◌<◌, ◌++◌, [], IfOk, OnOk, codes, length, string_bytes};
ghost use Rattle.std.specs.List.Sorted.{IsSorted};
ghost use Rattle.std.specs.String.{string_cmp};
ghost use Rattle.iol_core.specs.declared.limits.TheConstants.{MAX_NAME_BYTES};
ghost use Rattle.iol_tree.specs.Index.{path_below, raised_by};
ghost use Rattle.iol_tree.specs.Walk.{IsSkipped, TakesEntry};

use iol_core::limits::MAX_NAME_BYTES;
use std::alloc::{AllocError, Global};
use std::io::ErrorKind;
use std::rt::Files;
use std::{fs, io};

/// The names found below a folder so far.
#[derive(Drop)]
pub struct Walk {
    /// The names of regular files: their paths below the folder.
    pub names: Vec<String>,

    /// The number of entries that are neither regular files nor folders, or have no name of at most 255 bytes in UTF-8, or
    /// could not be read.
    pub skipped: u64,

    // The folders that are still to be read.
    folders: Vec<String>,
}

impl Walk {
    fn new(alloc: Global) -> Walk
        ensures names { result.names.items ≡ [] }
        ensures skipped { result.skipped ≡ 0 }
        ensures folders { result.folders.items ≡ [] }
    {
        Walk {
            names: Vec::new(alloc),
            skipped: 0,
            folders: Vec::new(alloc),
        }
    }

    fn skip(&mut self)
        ensures { self.new ≡ record self.old { skipped = raised_by self.old.skipped 1 } }
    {
        self.skipped = self.skipped.saturating_add(1);
    }

    // Reads a folder, and adds its files and folders.
    fn read<R>(&mut self, rt: &R, root: &str, folder: &str) -> io::Result<()>
    where
        R: Files + AllocGlobal + Clone + Drop,
    {
        let path = join(rt.alloc(), root, folder)?;
        for entry in fs::read_dir(rt, path.as_str())? {
            match entry {
                Ok(entry) => {
                    let name = join(rt.alloc(), folder, entry.file_name())?;
                    self.add(rt, root, name)?;
                }
                Err(e) if e.kind() == ErrorKind::InvalidFilename => self.skip(),
                Err(e) => return Err(e),
            }
        }
        Ok(())
    }

    // Adds the entry of this name: a folder, or a regular file. A link is neither, whatever it leads to.
    fn add<R: Files + AllocGlobal>(
        &mut self,
        rt: &R,
        root: &str,
        name: String,
    ) -> Result<(), AllocError>
        ensures takes { OnOk result (TakesEntry (string_bytes name) self.old self.new) }
        ensures long { MAX_NAME_BYTES < length (string_bytes name) → IsSkipped self.old self.new }
    {
        if name.len() > MAX_NAME_BYTES {
            self.skip();
            return Ok(());
        }
        let path = join(rt.alloc(), root, name.as_str())?;
        match fs::symlink_metadata(rt, path.as_str()) {
            Ok(found) if found.is_dir() => self.folders.push(name)?,
            Ok(found) if found.is_file() => self.names.push(name)?,
            _ => self.skip(),
        }
        Ok(())
    }
}

/// A path below another: the other itself if the path is empty, and the path itself if the other is empty.
pub fn join(alloc: Global, above: &str, below: &str) -> Result<String, AllocError>
    ensures { IfOk result (λ path. string_bytes path ≡ path_below above.now below.now) }
{
    if above.is_empty() {
        return String::from_str(alloc, below);
    }
    if below.is_empty() {
        return String::from_str(alloc, above);
    }
    with_slash(alloc, above, below)
}

// Two paths, joined by a slash.
fn with_slash(alloc: Global, above: &str, below: &str) -> Result<String, AllocError>
    ensures { IfOk result (λ path. string_bytes path ≡ above.now ++ codes "/" ++ below.now) }
{
    format!(in alloc; "{above}/{below}")
}

/// Walks the folder and the folders below it. A folder below it that cannot be read is skipped. The error is that of the
/// folder itself, or has the kind `OutOfMemory`.
pub fn walk_below<R>(rt: &R, root: &str) -> io::Result<Walk>
where
    R: Files + AllocGlobal + Clone + Drop,
    ensures { IfOk result (λ walk. IsSorted string_cmp walk.names.items) }
{
    let mut walk = Walk::new(rt.alloc());
    walk.read(rt, root, "")?;
    for _ in 0..u64::MAX {
        let Some(folder) = walk.folders.pop() else {
            break;
        };
        match walk.read(rt, root, folder.as_str()) {
            Ok(()) => {}
            Err(e) if e.kind() == ErrorKind::OutOfMemory => return Err(e),
            Err(_) => walk.skip(),
        }
    }
    walk.names.sort_unstable();
    Ok(walk)
}
