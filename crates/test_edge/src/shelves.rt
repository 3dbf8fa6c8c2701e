//! Files that are read a byte at a time, and files that fail in the middle.
use crate::folder::{Folder, Watch};
use ilk_base::{FileShelf, ReadTrouble, Shelf};
use std::fs;
use std::rt::Files;
use std::test::Fail;

const NAME: &str = "test_edge_shelf.txt";

// How many bytes are read of up to so many, and the trouble.
fn read_text<R: Files>(shelf: &mut FileShelf<R>, most: u32) -> Result<usize, ReadTrouble> {
    match shelf.read(NAME, most) {
        Ok(bytes) => Ok(bytes.len()),
        Err(trouble) => Err(trouble),
    }
}

// Whether a read that fails in the middle is a fault, and no shorter file; the next one is whole.
fn fails_in_the_middle<R: Files>(shelf: &mut FileShelf<R>, watch: &Watch) -> bool {
    watch.fails_at.set(watch.reads.get().wrapping_add(9));
    read_text(shelf, 100) == Err(ReadTrouble::Failed) && read_text(shelf, 100) == Ok(12)
}

// Whether the file of twelve bytes is read whole, or as far as is asked.
fn is_whole<R: Files>(shelf: &mut FileShelf<R>) -> bool {
    read_text(shelf, 100) == Ok(12) && read_text(shelf, 5) == Ok(5)
}

// Whether a file is read so, and is a fault once it is gone.
fn is_read(rt: &HostRuntime, watch: &Watch) -> bool {
    let folder = Folder { rt, watch };
    let mut shelf = FileShelf::new(rt.alloc(), &folder);
    fs::write(rt, NAME, "twelve bytes").is_ok()
        && is_whole(&mut shelf)
        && fails_in_the_middle(&mut shelf, watch)
        && fs::remove_file(rt, NAME).is_ok()
        && read_text(&mut shelf, 100) == Err(ReadTrouble::Failed)
}

// A file is read whole, however little each read gives, and whatever interrupts it.
#[test]
fn a_file_byte_by_byte(rt: HostRuntime) {
    let watch = Watch::new();
    assert!(rt; is_read(&rt, &watch));
}

const LARGE: &str = "test_edge_large.txt";

// Whether the first `most` bytes of the file, or all if there are fewer, are these.
fn gives(rt: &HostRuntime, most: u32, want: &[u8]) -> bool {
    match FileShelf::new(rt.alloc(), rt).read(LARGE, most) {
        Ok(bytes) => &bytes[..] == want,
        Err(_) => false,
    }
}

// A file of more bytes than the system gives in one read.
#[test]
fn a_large_file(rt: HostRuntime) -> Result<(), Fail> {
    let large = vec![in rt.alloc(); b'x'; 300_000]?;
    fs::write(&rt, LARGE, &large)?;
    assert!(rt; gives(&rt, 8_388_609, &large));
    assert!(rt; gives(&rt, 200_000, large.get(..200_000).unwrap_or(b"")));
    fs::remove_file(&rt, LARGE)?;
    Ok(())
}
