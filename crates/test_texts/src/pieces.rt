//! Texts that go out in pieces: all of it, whatever the output takes at once, or a front where it fails.
use ilk_base::{Failed, MemSink, Text};
use piece_writer::{NamedText, PIECE, PieceWriter};
use std::alloc::Global;
use std::test::Fail;

// A name of so many hundreds of bytes.
fn name_of(alloc: Global, hundreds: u16) -> Result<Text, Fail> {
    let mut name = Text::new(alloc);
    for _ in 0..hundreds {
        name.push(&[b'N'; 100])?;
    }
    Ok(name)
}

// Two names, the second longer than what a writer holds back.
fn two_names(alloc: Global) -> Result<Vec<Text>, Fail> {
    let mut names = Vec::new(alloc);
    names.push(name_of(alloc, 1)?)?;
    names.push(name_of(alloc, 700)?)?;
    Ok(names)
}

// Two lines; no name has the number 2.
fn fill(text: &mut NamedText) -> Result<(), Fail> {
    text.word(b"first ")?;
    text.name(0)?;
    text.name(1)?;
    text.name(2)?;
    text.word(b"\nsecond ")?;
    text.name(0)?;
    text.word(b"\n")?;
    Ok(())
}

// What an output with so much room, that takes at most so much in a call, answers; and how much it took of the text.
fn written(
    alloc: Global,
    text: &NamedText,
    room: usize,
    most: usize,
) -> Result<(Result<(), Failed>, usize), Fail> {
    let mut writer = PieceWriter::new(alloc)?;
    let mut sink = MemSink::new(alloc, room, most.max(1))?;
    let result = text.write(&mut writer, &mut sink);
    Ok((result, sink.bytes().len()))
}

// The text has 6 + 100 + 70,000 + 8 + 100 + 1 bytes.
#[test]
fn goes_out_in_pieces(rt: HostRuntime) -> Result<(), Fail> {
    let mut text = NamedText::new(rt.alloc(), two_names(rt.alloc())?);
    fill(&mut text)?;
    assert!(rt; PIECE < 70_000);
    for (room, most, want) in [
        (100_000, 100_000, (Ok(()), 70_215)),
        (100_000, 7, (Ok(()), 70_215)),
        (70_215, 4096, (Ok(()), 70_215)),
        (70_000, 4096, (Err(Failed), 70_000)),
        (50, 4096, (Err(Failed), 50)),
        (0, 1, (Err(Failed), 0)),
    ] {
        assert!(rt; written(rt.alloc(), &text, room, most)? == want);
    }
    Ok(())
}
