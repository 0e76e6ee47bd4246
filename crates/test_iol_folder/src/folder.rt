//! Tests of the store over a folder that is made for the test: contracts do not cover the contents
//! of a disk.
//!
//! Functions return whether the result is as expected, and only the test passes or fails by that.
use iol_back::backing::Backing;
use iol_back::folder::FolderBacking;
use iol_core::limits::{MAX_FILE_BYTES, MAX_FILES};
use iol_core::numbers::FileId;
use std::alloc::Global;
use std::fs::FileTimes;
use std::os::unix::fs::symlink;
use std::os::unix::net::UnixListener;
use std::rt::Files;
use std::test::Fail;
use std::time::SystemTime;
use std::{fs, io};
use test_parts::checks::pass;

type Store = FolderBacking<HostRuntime>;

// Makes a folder with these files and their bytes. A folder of an earlier run is deleted first.
fn make(rt: &HostRuntime, alloc: Global, root: &str, files: &[(&str, &str)]) -> io::Result<()> {
    let _ = fs::remove_dir_all(rt, root);
    fs::create_dir(rt, root)?;
    for (name, text) in files {
        let path = format!(in alloc; "{root}/{name}")?;
        fs::write(rt, path.as_str(), *text)?;
    }
    Ok(())
}

// Reads up to eight bytes; none if the store failed.
fn read<R: Files>(
    store: &mut FolderBacking<R>,
    slot: u32,
    at: u32,
    count: usize,
) -> Option<[u8; 8]> {
    let mut bytes = [0u8; 8];
    match store.read_at(FileId::new(slot), at, &mut bytes[..count.min(8)]) {
        Ok(()) => Some(bytes),
        Err(_) => None,
    }
}

// Returns whether the first byte of the first file can be read.
fn is_read<R: Files>(store: &mut FolderBacking<R>) -> bool {
    read(store, 1, 0, 1).is_some()
}

// Returns whether these bytes can be written to a position.
fn writes<R: Files>(store: &mut FolderBacking<R>, slot: u32, at: u32, bytes: &[u8]) -> bool {
    store.write_at(FileId::new(slot), at, bytes).is_ok()
}

// A file's number, its name and its length.
type Row = (u32, Option<&'static str>, u32);

fn is_named<R: Files>(store: &FolderBacking<R>, file: FileId, want: Option<&str>) -> bool {
    store.name(file) == want
}

fn has_file<R: Files>(store: &FolderBacking<R>, row: &Row) -> bool {
    let (slot, name, length) = *row;
    let file = FileId::new(slot);
    is_named(store, file, name) && store.length(file) == length
}

fn has_files<R: Files>(store: &FolderBacking<R>, rows: &[Row]) -> bool {
    let mut all = true;
    for row in rows {
        all &= has_file(store, row);
    }
    all
}

// Three files in the order of their bytes, and no other.
const IN_ORDER: [Row; 5] = [
    (0, None, 0),
    (1, Some("B"), 6),
    (2, Some("a"), 0),
    (3, Some("b.txt"), 3),
    (4, None, 0),
];

// Reads within the files succeed.
fn reads_within<R: Files>(store: &mut FolderBacking<R>) -> bool {
    read(store, 1, 2, 3) == Some([b'c', b'd', b'e', 0, 0, 0, 0, 0])
        && read(store, 2, 0, 0) == Some([0; 8])
        && store.failures() == 0
}

// Reads past a file's end, and reads of a file that does not exist, fail.
fn fails_outside<R: Files>(store: &mut FolderBacking<R>) -> bool {
    read(store, 1, 4, 3).is_none()
        && read(store, 4, 0, 0).is_none()
        && read(store, 0, 0, 0).is_none()
        && store.failures() == 3
}

fn has_three<R: Files>(store: &mut FolderBacking<R>) -> bool {
    store.count() == 3 && has_files(store, &IN_ORDER) && reads_within(store) && fails_outside(store)
}

fn finds_three(rt: &HostRuntime) -> io::Result<bool> {
    let mut store: Store = FolderBacking::new(rt, "order")?;
    let all = has_three(&mut store);
    drop(store);
    Ok(all)
}

// A socket is among the files during this test.
fn finds_three_beside_a_socket(rt: &HostRuntime) -> io::Result<bool> {
    let listener = UnixListener::bind(rt, "order/e")?;
    let found = finds_three(rt);
    drop(listener);
    found
}

fn lists_in_order(rt: &HostRuntime) -> io::Result<bool> {
    let files = [("b.txt", "bee"), ("a", ""), ("B", "abcdef")];
    make(rt, rt.alloc(), "order", &files)?;
    symlink(rt, "a", "order/c")?;
    symlink(rt, "nowhere", "order/0")?;
    make(rt, rt.alloc(), "order/d", &[("deeper", "x")])?;
    let all = finds_three_beside_a_socket(rt)?;
    fs::remove_dir_all(rt, "order")?;
    Ok(all)
}

// Links, folders and sockets are no files, whatever their names; nor are files in subfolders.
#[test]
fn files_in_byte_order(rt: HostRuntime) -> Result<(), Fail> {
    pass(lists_in_order(&rt))
}

// Gives a file this length.
fn set_length(rt: &HostRuntime, path: &str, length: u64) -> io::Result<()> {
    let file = fs::File::options().write(true).open(rt, path)?;
    file.set_len(length)
}

fn make_numbered(rt: &HostRuntime, alloc: Global, number: u32) -> io::Result<()> {
    let path = format!(in alloc; "many/{number}")?;
    fs::write(rt, path.as_str(), "")
}

// Empty files, whose names are the numbers from 1000 to 2029.
fn make_many(rt: &HostRuntime, alloc: Global) -> io::Result<()> {
    make(rt, alloc, "many", &[])?;
    for number in 1000..2030 {
        make_numbered(rt, alloc, number)?;
    }
    Ok(())
}

// The first, the second, which is not the one that is too long, the last, and none.
const OF_MANY: [Row; 4] = [
    (1, Some("1000"), 0x100_0000),
    (2, Some("1002"), 0),
    (1024, Some("2024"), 0),
    (1025, None, 0),
];

// The last bytes of the long file can be read.
fn has_many<R: Files>(store: &mut FolderBacking<R>) -> bool {
    store.count() == MAX_FILES
        && has_files(store, &OF_MANY)
        && read(store, 1, 0xff_fff8, 8) == Some([0; 8])
}

fn finds_first_of_many(rt: &HostRuntime) -> io::Result<bool> {
    let mut store: Store = FolderBacking::new(rt, "many")?;
    let all = has_many(&mut store);
    drop(store);
    Ok(all)
}

fn lists_first(rt: &HostRuntime) -> io::Result<bool> {
    make_many(rt, rt.alloc())?;
    set_length(rt, "many/1000", MAX_FILE_BYTES as u64)?;
    set_length(rt, "many/1001", MAX_FILE_BYTES as u64 + 1)?;
    let all = finds_first_of_many(rt)?;
    fs::remove_dir_all(rt, "many")?;
    Ok(all)
}

// The first 1,024 files of at most 2^24 bytes.
#[test]
fn many_and_long_files(rt: HostRuntime) -> Result<(), Fail> {
    pass(lists_first(&rt))
}

// Returns whether a file has this text.
fn has_text(rt: &HostRuntime, path: &str, want: &str) -> io::Result<bool> {
    let text = fs::read_to_string(rt, path)?;
    Ok(text.as_str() == want)
}

// Writes that replace and extend the end of a file, and one of no bytes at its end.
fn writes_within<R: Files>(store: &mut FolderBacking<R>) -> bool {
    writes(store, 1, 4, b"XYZ")
        && store.length(FileId::new(1)) == 7
        && read(store, 1, 3, 4) == Some([b'd', b'X', b'Y', b'Z', 0, 0, 0, 0])
        && writes(store, 1, 7, b"")
}

// Writes past the end, and to a file that does not exist.
fn writes_none_outside<R: Files>(store: &mut FolderBacking<R>) -> bool {
    !writes(store, 1, 8, b"X") && !writes(store, 2, 0, b"X") && store.failures() == 2
}

fn all_writes_hold(rt: &HostRuntime, store: &mut Store) -> io::Result<bool> {
    Ok(writes_within(store) && has_text(rt, "written/a", "abcdXYZ")? && writes_none_outside(store))
}

fn write_all(rt: &HostRuntime) -> io::Result<bool> {
    let mut store: Store = FolderBacking::new(rt, "written")?;
    let all = all_writes_hold(rt, &mut store);
    drop(store);
    all
}

fn is_written_through(rt: &HostRuntime) -> io::Result<bool> {
    make(rt, rt.alloc(), "written", &[("a", "abcdef")])?;
    let all = write_all(rt)?;
    fs::remove_dir_all(rt, "written")?;
    Ok(all)
}

#[test]
fn writes_through(rt: HostRuntime) -> Result<(), Fail> {
    pass(is_written_through(&rt))
}

// The file was deleted, and a folder has its name.
fn fails_at_folder(rt: &HostRuntime, store: &mut Store) -> io::Result<bool> {
    fs::rename(rt, "changed/a", "changed/kept")?;
    let is_gone = !is_read(store);
    fs::create_dir(rt, "changed/a")?;
    let fails = !is_read(store) && !writes(store, 1, 0, b"X");
    fs::remove_dir(rt, "changed/a")?;
    Ok(is_gone && fails)
}

// A link to the file has its name.
fn fails_at_link(rt: &HostRuntime, store: &mut Store) -> io::Result<bool> {
    symlink(rt, "kept", "changed/a")?;
    let fails = !is_read(store);
    fs::remove_file(rt, "changed/a")?;
    Ok(fails)
}

// A socket has its name.
fn fails_at_socket(rt: &HostRuntime, store: &mut Store) -> io::Result<bool> {
    let listener = UnixListener::bind(rt, "changed/a")?;
    let fails = !is_read(store);
    drop(listener);
    fs::remove_file(rt, "changed/a")?;
    Ok(fails)
}

// Another file has its name, and then the file itself again.
fn fails_at_another(rt: &HostRuntime, store: &mut Store) -> io::Result<bool> {
    fs::write(rt, "changed/a", "ABCDEF")?;
    let fails = !is_read(store);
    fs::rename(rt, "changed/kept", "changed/a")?;
    Ok(fails && is_read(store))
}

// The file grows, and then shrinks.
fn fails_at_length(rt: &HostRuntime, store: &mut Store) -> io::Result<bool> {
    fs::write(rt, "changed/a", "abcdefg")?;
    let grew = !is_read(store);
    fs::write(rt, "changed/a", "abc")?;
    Ok(grew && !is_read(store))
}

fn all_fail(rt: &HostRuntime, store: &mut Store) -> io::Result<bool> {
    let all = is_read(store)
        && fails_at_folder(rt, store)?
        && fails_at_link(rt, store)?
        && fails_at_socket(rt, store)?
        && fails_at_another(rt, store)?
        && fails_at_length(rt, store)?;
    let bee = Some([b'b', b'e', b'e', 0, 0, 0, 0, 0]);
    Ok(all && store.failures() == 8 && read(store, 2, 0, 3) == bee)
}

fn change(rt: &HostRuntime) -> io::Result<bool> {
    let mut store: Store = FolderBacking::new(rt, "changed")?;
    let all = all_fail(rt, &mut store);
    drop(store);
    all
}

fn all_changes_fail(rt: &HostRuntime) -> io::Result<bool> {
    make(rt, rt.alloc(), "changed", &[("a", "abcdef"), ("b", "bee")])?;
    let all = change(rt)?;
    fs::remove_dir_all(rt, "changed")?;
    Ok(all)
}

// A file that grew, shrank, was deleted or replaced, or became a folder, a link or a socket fails,
// and is counted.
#[test]
fn changed_by_others(rt: HostRuntime) -> Result<(), Fail> {
    pass(all_changes_fail(&rt))
}

// Gives a file another time.
fn set_time(rt: &HostRuntime, path: &str) -> io::Result<()> {
    let file = fs::File::options().write(true).open(rt, path)?;
    file.set_times(FileTimes::new().set_modified(SystemTime::UNIX_EPOCH))
}

fn fails_at_time(rt: &HostRuntime, store: &mut Store) -> io::Result<bool> {
    let before = is_read(store);
    set_time(rt, "times/a")?;
    Ok(before && !is_read(store) && store.failures() == 1)
}

fn turn_back(rt: &HostRuntime) -> io::Result<bool> {
    let mut store: Store = FolderBacking::new(rt, "times")?;
    let all = fails_at_time(rt, &mut store);
    drop(store);
    all
}

fn time_is_known(rt: &HostRuntime) -> io::Result<bool> {
    make(rt, rt.alloc(), "times", &[("a", "abcdef")])?;
    let all = turn_back(rt)?;
    fs::remove_dir_all(rt, "times")?;
    Ok(all)
}

// Other bytes of the same length are detected only by their time.
#[test]
fn written_at_another_time(rt: HostRuntime) -> Result<(), Fail> {
    pass(time_is_known(&rt))
}

// The number of files of a store over this folder, if there is one.
fn count_of(rt: &HostRuntime, root: &str) -> io::Result<usize> {
    let store: Store = FolderBacking::new(rt, root)?;
    let count = store.count();
    drop(store);
    Ok(count)
}

const NO_FOLDERS: [&str; 3] = ["", "no such folder", "none/a"];

fn none_is_folder(rt: &HostRuntime) -> bool {
    let mut all = true;
    for root in NO_FOLDERS {
        all &= count_of(rt, root).is_err();
    }
    all
}

fn folder_alone(rt: &HostRuntime) -> io::Result<bool> {
    make(rt, rt.alloc(), "none", &[("a", "")])?;
    let all = none_is_folder(rt) && count_of(rt, "none/")? == 1;
    fs::remove_dir_all(rt, "none")?;
    Ok(all)
}

#[test]
fn no_folder(rt: HostRuntime) -> Result<(), Fail> {
    pass(folder_alone(&rt))
}
