//! What is refused, and where.
use crate::pieces::joined;
use crate::refused_rows::{A, E, N, P, REFUSED, REFUSED_KEYS, Row, Z};
use ilk_base::{Memory, Text};
use ssd_read::{SsdRefusal, read_ssd};
use station_graph::What;
use std::alloc::Global;
use std::test::Fail;

fn number_of(what: What) -> u32 {
    match what {
        What::Bytes => 1,
        What::Parts => 2,
        What::Bays => 3,
        What::Nodes => 4,
        What::Switches => 5,
        What::BaySwitches => 6,
        What::Links => 7,
        What::Taps => 8,
        What::Paths => 9,
    }
}

// Number, place (of 15 the limit) and count of a refusal.
fn told_refusal(refusal: SsdRefusal) -> (u8, u32, u32) {
    match refusal {
        SsdRefusal::Encoding { at } => (1, at, 0),
        SsdRefusal::Syntax { at } => (2, at, 0),
        SsdRefusal::Doctype { at } => (3, at, 0),
        SsdRefusal::Deep { at } => (4, at, 0),
        SsdRefusal::Mismatch { at } => (5, at, 0),
        SsdRefusal::Unclosed { at } => (6, at, 0),
        SsdRefusal::Many { at } => (7, at, 0),
        SsdRefusal::Root { at } => (8, at, 0),
        SsdRefusal::NoName { at } => (9, at, 0),
        SsdRefusal::Twice { at } => (10, at, 0),
        SsdRefusal::NodeMissing { at } => (11, at, 0),
        SsdRefusal::Terminals { at, count } => (12, at, count),
        SsdRefusal::Grounded { at } => (13, at, 0),
        SsdRefusal::Loop { at } => (14, at, 0),
        SsdRefusal::Limit { what, count } => (15, number_of(what), count),
        SsdRefusal::Memory => (99, 0, 0),
    }
}

// What a text is refused with, or 0.
pub(crate) fn outcome(alloc: Global, bytes: &[u8]) -> (u8, u32, u32) {
    match read_ssd(alloc, bytes) {
        Ok(_) => (0, 0, 0),
        Err(refusal) => told_refusal(refusal),
    }
}

// Whether the pieces are refused so.
fn is_refused(alloc: Global, pieces: &[&str], want: (u8, u32, u32)) -> bool {
    match joined(alloc, pieces) {
        Ok(text) => outcome(alloc, text.bytes()) == want,
        Err(_) => false,
    }
}

// Whether each row is refused as it says.
fn are_refused(alloc: Global, rows: &[Row]) -> bool {
    for (pieces, want) in rows {
        if !is_refused(alloc, pieces, *want) {
            return false;
        }
    }
    true
}

#[test]
fn refused(rt: HostRuntime) {
    assert!(rt; are_refused(rt.alloc(), REFUSED));
    assert!(rt; outcome(rt.alloc(), b"\xFF\xFE<\x00") == (1, 0, 0));
}

#[test]
fn refused_keys(rt: HostRuntime) {
    assert!(rt; are_refused(rt.alloc(), REFUSED_KEYS));
}

// Adds an infeed of this name.
fn push_infeed(text: &mut Text, name: &str) -> Result<(), Memory> {
    for piece in [
        "<ConductingEquipment name=\"E",
        name,
        "\" type=\"IFL\">",
        A,
        E,
    ] {
        text.push(piece.as_bytes())?;
    }
    Ok(())
}

// Adds 25 infeeds.
fn push_infeeds(alloc: Global, text: &mut Text) -> Result<(), Memory> {
    for number in 1..26u32 {
        let name = number.to_string(alloc)?;
        push_infeed(text, name.as_str())?;
    }
    Ok(())
}

// A text with 25 infeeds in one bay.
fn infeeds(alloc: Global) -> Result<Text, Memory> {
    let mut text = joined(alloc, &[P, N])?;
    push_infeeds(alloc, &mut text)?;
    text.push(Z.as_bytes())?;
    Ok(text)
}

// A text of one byte too many.
#[test]
fn too_large(rt: HostRuntime) -> Result<(), Fail> {
    let bytes = vec![in rt.alloc(); b' '; 8_388_609]?;
    assert!(rt; outcome(rt.alloc(), &bytes) == (15, 1, 8_388_609));
    Ok(())
}

// More switches in a bay than it may have.
#[test]
fn too_many(rt: HostRuntime) -> Result<(), Fail> {
    let text = infeeds(rt.alloc())?;
    assert!(rt; outcome(rt.alloc(), text.bytes()) == (15, 6, 25));
    Ok(())
}
