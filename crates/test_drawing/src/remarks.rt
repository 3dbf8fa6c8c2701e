//! What is remarked of small drawings.
use crate::pieces::joined;
use crate::remark_rows::{OF_EARTHING, OF_LINES, OF_PLACES, OF_WAYS, Row};
use drawing_remarks::station_text;
use ilk_base::{Memory, Text};
use ssd_read::{WholeDrawing, read_whole};
use std::alloc::Global;
use text_lines::Lines;

// Adds a line, where it is a remark.
fn push_remark(found: &mut Text, line: &[u8]) -> Result<(), Memory> {
    if line.starts_with(b"remark\t") {
        found.push(line)?;
        found.push(b"\n")?;
    }
    Ok(())
}

// Adds the lines of a text that are remarks.
fn push_remarks(found: &mut Text, text: &[u8]) -> Result<(), Memory> {
    if text.len() > 10_000 {
        return Ok(());
    }
    let mut lines = Lines::new(text);
    for _ in 0..200 {
        let Some((_, line)) = lines.next_filled() else {
            return Ok(());
        };
        push_remark(found, line)?;
    }
    Ok(())
}

// Whether these are the lines of a text that are remarks.
fn has_remarks(alloc: Global, text: &[u8], want: &str) -> bool {
    let mut found = Text::new(alloc);
    push_remarks(&mut found, text).is_ok() && found.bytes() == want.as_bytes()
}

// Whether this is remarked of a whole drawing.
fn says(alloc: Global, whole: &WholeDrawing, want: &str) -> bool {
    match station_text(alloc, whole) {
        Ok(report) => has_remarks(alloc, report.text.bytes(), want),
        Err(_) => false,
    }
}

// Whether the drawing is accepted, and this is remarked of it.
fn is_remarked(alloc: Global, drawing: &[u8], want: &str) -> bool {
    match read_whole(alloc, drawing) {
        Ok(whole) => says(alloc, &whole, want),
        Err(_) => false,
    }
}

fn is_row(alloc: Global, pieces: &[&str], want: &str) -> bool {
    match joined(alloc, pieces) {
        Ok(drawing) => is_remarked(alloc, drawing.bytes(), want),
        Err(_) => false,
    }
}

// Whether of each drawing is remarked what its row says.
fn are_rows(alloc: Global, rows: &[Row]) -> bool {
    for (pieces, want) in rows {
        if !is_row(alloc, pieces, want) {
            return false;
        }
    }
    true
}

#[test]
fn remarks_of_lines(rt: HostRuntime) {
    assert!(rt; are_rows(rt.alloc(), OF_LINES));
}

#[test]
fn remarks_of_earthing(rt: HostRuntime) {
    assert!(rt; are_rows(rt.alloc(), OF_EARTHING));
}

#[test]
fn remarks_of_places(rt: HostRuntime) {
    assert!(rt; are_rows(rt.alloc(), OF_PLACES));
}

#[test]
fn remarks_of_ways(rt: HostRuntime) {
    assert!(rt; are_rows(rt.alloc(), OF_WAYS));
}
