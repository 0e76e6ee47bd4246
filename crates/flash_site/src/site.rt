//! A site of the files of a store, and the world that serves it.
ghost use Rattle.std.specs.Prelude.{◌≡◌, ◌<◌, IfOk, Some, true, false, length, slice_get};
ghost use Rattle.iol_tree.specs.Store.{disk_of};
ghost use Rattle.flash_lite.specs.Prelude.{AreFilesOf, is_in_range};
ghost use Rattle.flash_site.specs.World.{IsWorldOf};

use flash_lite::actor::Actor;
use flash_lite::host::host;
use flash_lite::site::{Site, SiteFile};
use iol_core::configuration::Config;
use iol_core::refusals::Refusal;
use iol_proc::world::World;
use iol_tree::backing::TreeBacking;
use iol_tree::index::Index;
use std::alloc::{AllocError, Global};
use std::rt::Files;

// The files of an index, in order, readable by all.
fn files_of(alloc: Global, index: &Index) -> Result<Vec<SiteFile>, AllocError>
    ensures { IfOk result (λ files. AreFilesOf index.now.names files.items) }
{
    let mut files = Vec::new(alloc);
    for place in 0..index.count() {
        files.push(file_at(alloc, index, place)?)?;
    }
    Ok(files)
}

// The file at a position of the index.
fn file_at(alloc: Global, index: &Index, place: usize) -> Result<SiteFile, AllocError>
    requires { place < length index.now.names }
    ensures name { IfOk result (λ f. slice_get index.now.names place ≡ Some f.name.items) }
    ensures shared { IfOk result (λ f. f.private ≡ false) }
{
    SiteFile::shared(alloc, index.name(place))
}

// The site of these files.
fn site_of(alloc: Global, index: &Index) -> Result<Site, AllocError>
    ensures files { IfOk result (λ site. AreFilesOf index.now.names site.files.items) }
    ensures range { IfOk result (λ site. is_in_range site ≡ true) }
{
    Ok(Site::of_shared(files_of(alloc, index)?))
}

/// Creates a world that serves the files of a store to all, over that store.
pub fn world_of<R: Files + Drop>(
    alloc: Global,
    store: TreeBacking<R>,
) -> Result<World<TreeBacking<R>, Actor>, Refusal>
    ensures { IfOk result (λ world. IsWorldOf store.names (disk_of store) world) }
{
    let site = site_of(alloc, store.index())?;
    let hosted = host(alloc, Config::DEFAULT, store, &site, &[], 0)?;
    Ok(hosted.world)
}
