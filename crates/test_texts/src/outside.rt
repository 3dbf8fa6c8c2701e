//! What no clause says: that each call succeeds where memory is ample, and that files and streams of
//! the system are there.
ghost use Rattle.std.specs.Prelude.{◌<◌, length};

use ilk_base::{
    BayId, Failed, FileShelf, HeardList, MemShelf, MemSink, MemSource, ReadTrouble, Shelf, Sink,
    Source, StdIn, StdOut, Summary, Text, write_all, write_pieces,
};
use std::alloc::Global;
use std::fs;
use std::test::Fail;

// Whether a text has the bytes that are put.
fn keeps_bytes(alloc: Global) -> Result<bool, Fail> {
    let mut text = Text::new(alloc);
    text.push(b"bay ")?;
    text.push(b"E1")?;
    Ok(text.bytes() == b"bay E1".as_slice())
}

// How many bytes are heard of the bay.
fn heard_of(heard: &HeardList, bay: u8) -> Option<usize>
    requires { bay < length heard.now }
{
    match heard.get(BayId(bay)) {
        Some(summary) => Some(summary.bytes().len()),
        None => None,
    }
}

// Whether what one of three bays tells is heard of it alone.
fn keeps_heard(alloc: Global) -> Result<bool, Fail> {
    let mut heard = HeardList::none(alloc, 3)?;
    heard.set(BayId(1), Summary::new(&[7; 32]).unwrap_or(Summary::empty()));
    Ok(
        heard_of(&heard, 0) == None
            && heard_of(&heard, 1) == Some(32)
            && heard_of(&heard, 2) == None,
    )
}

#[test]
fn keeps_what_is_put(rt: HostRuntime) -> Result<(), Fail> {
    assert!(rt; keeps_bytes(rt.alloc())?);
    assert!(rt; keeps_heard(rt.alloc())?);
    assert!(rt; Summary::new(&[7; 33]).is_none());
    assert!(rt; Summary::empty().bytes().len() == 0);
    Ok(())
}

// How many of up to eight bytes are read; none where the read fails.
fn next<S: Source>(source: &mut S) -> Option<usize> {
    let mut into = [0; 8];
    source.read(&mut into).ok()
}

// Call by call, how many bytes come; none where the call fails.
const COMING: &[Option<usize>] = &[None, Some(4), None, Some(4), Some(2), Some(0)];

// Whether so many bytes come.
fn come<S: Source>(source: &mut S, wants: &[Option<usize>]) -> bool {
    for want in wants {
        if next(source) != *want {
            return false;
        }
    }
    true
}

// Whether they come where the first call and the third are to fail.
fn come_failing(source: &mut MemSource, wants: &[Option<usize>]) -> Result<bool, Fail> {
    source.fail(1)?;
    source.fail(3)?;
    Ok(come(source, wants))
}

#[test]
fn plays_sources(rt: HostRuntime) -> Result<(), Fail> {
    let mut source = MemSource::new(rt.alloc(), b"abcdefghij", 4)?;
    assert!(rt; come_failing(&mut source, COMING)?);
    Ok(())
}

// Call by call, how many of five bytes are taken.
const TAKEN: &[Result<usize, Failed>] = &[Ok(3), Err(Failed), Ok(3), Ok(1), Err(Failed)];

// Whether so many are taken.
fn are_taken(sink: &mut MemSink, wants: &[Result<usize, Failed>]) -> bool {
    for want in wants {
        if sink.write(b"abcde") != *want {
            return false;
        }
    }
    true
}

// Whether they are where the second call is to fail, and what is then there.
fn are_taken_failing(sink: &mut MemSink, wants: &[Result<usize, Failed>]) -> Result<bool, Fail> {
    sink.fail(2)?;
    Ok(are_taken(sink, wants) && sink.bytes() == b"abcabca".as_slice())
}

#[test]
fn plays_sinks(rt: HostRuntime) -> Result<(), Fail> {
    let mut sink = MemSink::new(rt.alloc(), 7, 3)?;
    assert!(rt; are_taken_failing(&mut sink, TAKEN)?);
    Ok(())
}

// Whether five bytes are written, of seven more five, as there is room for ten, and no more.
fn takes_ten(sink: &mut MemSink) -> bool {
    write_all(sink, b"abcde") == Ok(())
        && write_pieces(sink, &[b"fg".as_slice(), b"hijkl".as_slice()]) == Err(Failed)
        && sink.bytes() == b"abcdefghij".as_slice()
}

#[test]
fn writes_all_or_fails(rt: HostRuntime) -> Result<(), Fail> {
    let mut sink = MemSink::new(rt.alloc(), 10, 3)?;
    assert!(rt; takes_ten(&mut sink));
    Ok(())
}

// The bytes under a name, or the trouble.
fn read_text<F: Shelf>(shelf: &mut F, name: &str, most: u32) -> Result<usize, ReadTrouble> {
    match shelf.read(name, most) {
        Ok(bytes) => Ok(bytes.len()),
        Err(trouble) => Err(trouble),
    }
}

// A name, how many bytes are asked for at most, and how many come, or the trouble.
type Asked = (&'static str, u32, Result<usize, ReadTrouble>);

// Call by call; the third is to fail.
const ASKED: &[Asked] = &[
    ("a.ssd", 100, Ok(6)),
    ("a.ssd", 2, Ok(2)),
    ("a.ssd", 100, Err(ReadTrouble::Failed)),
    ("b.csv", 100, Ok(0)),
    ("c.csv", 100, Err(ReadTrouble::Failed)),
];

// Puts two texts under one name and an empty one under another, and makes the third call fail.
fn fill_shelf(shelf: &mut MemShelf) -> Result<(), Fail> {
    shelf.put("a.ssd", b"first")?;
    shelf.put("b.csv", b"")?;
    shelf.put("a.ssd", b"second")?;
    shelf.fail(3)?;
    Ok(())
}

// Whether each call is answered so.
fn are_answered<F: Shelf>(shelf: &mut F, rows: &[Asked]) -> bool {
    for (name, most, want) in rows {
        if read_text(shelf, name, *most) != *want {
            return false;
        }
    }
    true
}

#[test]
fn plays_shelves(rt: HostRuntime) -> Result<(), Fail> {
    let mut shelf = MemShelf::new(rt.alloc());
    fill_shelf(&mut shelf)?;
    assert!(rt; are_answered(&mut shelf, ASKED));
    Ok(())
}

#[test]
fn reads_files(rt: HostRuntime) -> Result<(), Fail> {
    fs::write(&rt, "outside_test.txt", "twelve bytes")?;
    let mut shelf = FileShelf::new(rt.alloc(), &rt);
    assert!(rt; read_text(&mut shelf, "outside_test.txt", 100) == Ok(12));
    assert!(rt; read_text(&mut shelf, "outside_test.txt", 6) == Ok(6));
    fs::remove_file(&rt, "outside_test.txt")?;
    assert!(rt; read_text(&mut shelf, "outside_test.txt", 6) == Err(ReadTrouble::Failed));
    Ok(())
}

#[test]
fn writes_and_reads_streams(rt: HostRuntime) -> Result<(), Fail> {
    let mut out = StdOut::new(Vec::new(rt.alloc()));
    assert!(rt; write_all(&mut out, b"a line\n") == Ok(()));
    let mut input = StdIn::new(b"abc".as_slice());
    assert!(rt; next(&mut input) == Some(3));
    Ok(())
}
