//! A site with the files of a folder, and the world that serves it.
ghost use Rattle.std.specs.Prelude.{◌≡◌, ◌<◌, IfErr, IfOk, Some, true, false, length, slice_get};
ghost use Rattle.iol_core.specs.declared.limits.TheConstants.{MAX_FILES};
ghost use Rattle.iol_back.specs.Folder.{AreNames};
ghost use Rattle.flash_folder.specs.Fault.{StopsStart};
ghost use Rattle.flash_folder.specs.World.{BeginsFolder, IsFolderWorld};
ghost use Rattle.flash_lite.specs.Prelude.{AreFilesOf, is_in_range};

use crate::fault::Fault;
use flash_lite::actor::Actor;
use flash_lite::site::{Site, SiteFile};
use iol_back::folder::FolderBacking;
use iol_core::configuration::Config;
use iol_core::numbers::FileId;
use iol_core::refusals::Refusal;
use iol_proc::world::World;
use std::alloc::{AllocError, Global};
use std::rt::Files;

/// Creates a world that serves the files of a folder, with their current contents.
#[tactic(auto, using(crate::proofs::Begins::begins_folder))]
pub fn world_of<R: Files + AllocGlobal + Clone + Drop>(
    rt: &R,
    root: &str,
) -> Result<World<FolderBacking<R>, Actor>, Fault>
    ensures fault { IfErr result StopsStart }
    ensures world { IfOk result BeginsFolder }
{
    let store = match FolderBacking::new(rt, root) {
        Ok(store) => store,
        Err(e) => return Err(Fault::of(&e, Fault::Folder)),
    };
    // All sizes are within their limits, so the only possible error is out of memory.
    match world_over(rt.alloc(), store) {
        Ok(world) => Ok(world),
        Err(_) => Err(Fault::Memory),
    }
}

// All files of a store, by slot, readable by all.
fn files_of<R: Files>(alloc: Global, store: &FolderBacking<R>) -> Result<Vec<SiteFile>, AllocError>
    ensures files { IfOk result (λ files. AreFilesOf store.now.names files.items) }
    ensures names { AreNames store.now.names }
{
    let mut files = Vec::new(alloc);
    for place in 0..store.count() {
        files.push(file_at(alloc, store, place)?)?;
    }
    Ok(files)
}

// The file in a slot.
fn file_at<R: Files>(
    alloc: Global,
    store: &FolderBacking<R>,
    place: usize,
) -> Result<SiteFile, AllocError>
    requires there { place < length store.now.names }
    requires few { place < MAX_FILES }
    ensures name { IfOk result (λ f. slice_get store.now.names place ≡ Some f.name.items) }
    ensures shared { IfOk result (λ f. f.private ≡ false) }
{
    let Some(name) = store.name(FileId::new(place as u32 + 1)) else {
        unreachable!();
    };
    SiteFile::shared(alloc, name)
}

// The site of the files of a store.
fn site_of<R: Files>(alloc: Global, store: &FolderBacking<R>) -> Result<Site, AllocError>
    ensures files { IfOk result (λ site. AreFilesOf store.now.names site.files.items) }
    ensures range { IfOk result (λ site. is_in_range site ≡ true) }
    ensures names { AreNames store.now.names }
{
    Ok(Site::of_shared(files_of(alloc, store)?))
}

// Creates the world of a site over a store's files.
fn world_over<R: Files + Drop>(
    alloc: Global,
    store: FolderBacking<R>,
) -> Result<World<FolderBacking<R>, Actor>, Refusal>
    ensures { IfOk result (λ world. IsFolderWorld store world) }
{
    let site = site_of(alloc, &store)?;
    let hosted = flash_lite::host::host(alloc, Config::DEFAULT, store, &site, &[], 0)?;
    Ok(hosted.world)
}
