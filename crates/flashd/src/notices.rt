//! Notices about a site on standard error. An error of such a write is ignored.
use flash_site::source::Summary;
use std::io;
use std::io::Eprint;

/// Reports properties of a site that a client would not expect.
pub fn tell_site<R: Eprint>(rt: &R, root: &str, summary: &Summary) {
    if !summary.is_in_memory {
        let _ = tell_folder(rt, root);
    }
    if summary.skipped > 0 {
        let _ = tell_skipped(rt, root, summary.skipped);
    }
}

/// Reports that a site outgrew the memory that it is to be served from, so that its last state is
/// served.
pub fn tell_outgrown<R: Eprint>(rt: &R, root: &str) {
    let _ = tell_last_state(rt, root);
}

fn tell_last_state<R: Eprint>(rt: &R, root: &str) -> io::Result<()> {
    eprintln!(rt; "flashd: the files of {root} exceed --preload-limit: their last state is served")
}

fn tell_folder<R: Eprint>(rt: &R, root: &str) -> io::Result<()> {
    eprintln!(rt; "flashd: serving from the folder {root}: its files are not in memory")
}

fn tell_skipped<R: Eprint>(rt: &R, root: &str, skipped: u64) -> io::Result<()> {
    eprintln!(rt;
        "flashd: {skipped} entries of {root} are not served: links, long files or names, unreadable ones, or more than 1024 files"
    )
}
