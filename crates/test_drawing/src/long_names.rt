//! A name of a mebibyte above many elements: their paths together have more bytes than they may.
use crate::pieces::END;
use crate::refusals::outcome;
use ilk_base::{Memory, Text};
use std::alloc::Global;
use std::test::Fail;

// The bytes of the substation's name, which stands in its own path, in those of a level and of a bay, and in that of
// each node.
const LONG: usize = 1_048_576;

// Adds a drawing with so many nodes of one name below another.
fn push_drawing(text: &mut Text, name: &[u8], nodes: u32) -> Result<(), Memory> {
    text.push(b"<SCL><Substation name=\"")?;
    text.push(name)?;
    text.push(b"\"><VoltageLevel name=\"V\"><Bay name=\"Q\">")?;
    for _ in 0..nodes {
        text.push(b"<ConnectivityNode name=\"a\"/>")?;
    }
    text.push(END.as_bytes())
}

// The drawing with the name.
fn drawing_below(alloc: Global, name: &[u8], nodes: u32) -> Result<Text, Memory> {
    let mut text = Text::new(alloc);
    push_drawing(&mut text, name, nodes)?;
    Ok(text)
}

// A drawing with so many nodes of one name below the long one.
fn drawing(alloc: Global, nodes: u32) -> Result<Text, Memory> {
    let name = vec![in alloc; b'n'; LONG]?;
    drawing_below(alloc, &name, nodes)
}

// What the drawing with so many nodes is refused with.
fn answer(alloc: Global, nodes: u32) -> Result<(u8, u32, u32), Memory> {
    let text = drawing(alloc, nodes)?;
    Ok(outcome(alloc, text.bytes()))
}

#[test]
fn long_names(rt: HostRuntime) -> Result<(), Fail> {
    // The paths of two nodes fit: the second node, behind 23 bytes, the name, 39 bytes and a node of 28, is there twice.
    assert!(rt; answer(rt.alloc(), 2)? == (10, 1_048_666, 0));
    // Of 62 nodes they do not, as 65 paths have the name: this is seen before what is there twice.
    assert!(rt; answer(rt.alloc(), 62)? == (15, 9, 67_108_865));
    Ok(())
}
