//! The texts of the smallest station, and the words that name a number and a text. The texts are worked by
//! hand from the rules of docs/FORMATS.md.
ghost use Rattle.std.specs.Prelude.{◌≤◌};

use station_make::{
    LEAST_FEEDERS, MOST_FEEDERS, MadeText, feeders_named, make, make_text, text_named,
};
use std::alloc::Global;

// The positions of the switches for two feeders.
const POSITIONS: &str = "S/V1/K0/QB1,on
S/V1/K0/QA1,on
S/V1/K0/QB2,on
S/V1/Q1/QB1,on
S/V1/Q1/QB2,off
S/V1/Q1/QA1,on
S/V1/Q1/QB9,on
S/V1/Q1/QC9,off
S/V1/Q1/E1,on
S/V1/Q2/QB1,off
S/V1/Q2/QB2,on
S/V1/Q2/QA1,on
S/V1/Q2/QB9,on
S/V1/Q2/QC9,off
S/V1/Q2/E1,on
";

// Whether the positions of so many feeders are these.
fn has_positions(alloc: Global, feeders: u8, positions: &str) -> bool
    requires least { LEAST_FEEDERS ≤ feeders }
    requires most { feeders ≤ MOST_FEEDERS }
{
    match make(alloc, feeders) {
        Ok(made) => made.positions.bytes() == positions.as_bytes(),
        Err(_) => false,
    }
}

#[test]
fn positions_of_two_feeders(rt: HostRuntime) {
    assert!(rt; has_positions(rt.alloc(), 2, POSITIONS));
}

// Whether this is the text where it is made alone.
fn is_alone(alloc: Global, which: MadeText, word: &str, text: &[u8]) -> bool {
    let Some(feeders) = feeders_named(word) else {
        return false;
    };
    match make_text(alloc, which, feeders) {
        Ok(alone) => alone.bytes() == text,
        Err(_) => false,
    }
}

// Whether the drawing and the log of three feeders are the same made alone.
fn are_alone(alloc: Global) -> bool {
    match make(alloc, 3) {
        Ok(made) => {
            is_alone(alloc, MadeText::Station, "3", made.station.bytes())
                && is_alone(alloc, MadeText::Log, "3", made.events.bytes())
        }
        Err(_) => false,
    }
}

#[test]
fn texts_alone(rt: HostRuntime) {
    assert!(rt; are_alone(rt.alloc()));
}

// Words, and the numbers of feeders that they are.
const NUMBERS: &[(&str, Option<u8>)] = &[
    ("2", Some(2)),
    ("60", Some(60)),
    // too few, too many
    ("1", None),
    ("61", None),
    ("260", None),
    // a leading zero, a sign, nothing, no digits
    ("02", None),
    ("+2", None),
    ("", None),
    ("two", None),
];

fn number_named(word: &str) -> Option<u8> {
    match feeders_named(word) {
        Some(feeders) => Some(feeders.number),
        None => None,
    }
}

fn are_named(rows: &[(&str, Option<u8>)]) -> bool {
    for (word, number) in rows {
        if number_named(word) != *number {
            return false;
        }
    }
    true
}

#[test]
fn numbers(rt: HostRuntime) {
    assert!(rt; are_named(NUMBERS));
}

#[test]
fn texts(rt: HostRuntime) {
    assert!(rt; text_named("station") == Some(MadeText::Station));
    assert!(rt; text_named("positions") == Some(MadeText::Positions));
    assert!(rt; text_named("log") == Some(MadeText::Log));
    assert!(rt; text_named("logs") == None);
}
