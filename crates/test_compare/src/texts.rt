//! The text of `compare`.
use crate::drawn::{FED, JOINED, PARTED};
use compare_text::compare_text;
use piece_writer::NamedText;
use station_graph::Station;
use std::alloc::Global;
use std::test::Fail;
use test_stations::{Drawing, Example, drawing_of, station_of};

// Whether the lines are this text.
fn say(alloc: Global, lines: &NamedText, text: &str) -> bool {
    match lines.whole(alloc) {
        Ok(whole) => whole.bytes() == text.as_bytes(),
        Err(_) => false,
    }
}

// Whether the report of the stations is this text, and says so of an extension.
fn reports(alloc: Global, old: &Station, new: &Station, text: &str, extends: bool) -> bool {
    match compare_text(alloc, old, new) {
        Ok(report) => report.extends == extends && say(alloc, &report.lines, text),
        Err(_) => false,
    }
}

// Whether that of these drawings is.
fn drawn_so(
    alloc: Global,
    old: &Drawing,
    new: &Drawing,
    text: &str,
    extends: bool,
) -> Result<bool, Fail> {
    let old = station_of(alloc, old)?;
    let new = station_of(alloc, new)?;
    Ok(reports(alloc, &old, &new, text, extends))
}

// Closing the earthing switch breaks R1 in the old station while the infeed is on, and setting the infeed on breaks R2 while
// the earthing switch is closed; in the new one neither does while the disconnector is open. The switches that both have
// are one each, so there is one position to show.
const APART: &str = "same open S/V1/Q1/QC9
changed close S/V1/Q1/QC9
looser R1
with both S/V1/Q1/E1
same open S/V1/Q1/E1
changed close S/V1/Q1/E1
looser R2
with both S/V1/Q1/QC9
new open S/V1/Q1/QB1
new close S/V1/Q1/QB1
bay changed S/V1/Q1
";

#[test]
fn what_is_looser_is_shown(rt: HostRuntime) -> Result<(), Fail> {
    assert!(rt; drawn_so(rt.alloc(), &JOINED, &PARTED, APART, false)?);
    Ok(())
}

// The other way round it is stricter, and the disconnector is gone.
const TOGETHER: &str = "same open S/V1/Q1/QC9
changed close S/V1/Q1/QC9
stricter R1
with both S/V1/Q1/E1
same open S/V1/Q1/E1
changed close S/V1/Q1/E1
stricter R2
with both S/V1/Q1/QC9
gone open S/V1/Q1/QB1
gone close S/V1/Q1/QB1
bay changed S/V1/Q1
";

#[test]
fn turned_round_it_is_stricter(rt: HostRuntime) -> Result<(), Fail> {
    assert!(rt; drawn_so(rt.alloc(), &PARTED, &JOINED, TOGETHER, false)?);
    Ok(())
}

// The earthing switch is hindered by what only the new station has, and only while both of it are closed.
const WITH_A_FEEDER: &str = "same open S/V1/Q1/QC9
kept close S/V1/Q1/QC9
stricter R1
with new S/V1/Q2/QB1
with new S/V1/Q2/E1
new open S/V1/Q2/QB1
new close S/V1/Q2/QB1
new open S/V1/Q2/E1
new close S/V1/Q2/E1
bay kept S/V1/Q1
bay new S/V1/Q2
";

#[test]
fn what_is_new_is_shown_closed(rt: HostRuntime) -> Result<(), Fail> {
    assert!(rt;
        drawn_so(
            rt.alloc(),
            drawing_of(Example::OneEarthed),
            &FED,
            WITH_A_FEEDER,
            true
        )?
    );
    Ok(())
}

// A station that lost a switch is no extension, though each operation that it has is kept.
const WITHOUT_THE_FEEDER: &str = "same open S/V1/Q1/QC9
kept close S/V1/Q1/QC9
looser R1
with old S/V1/Q2/QB1
with old S/V1/Q2/E1
gone open S/V1/Q2/QB1
gone close S/V1/Q2/QB1
gone open S/V1/Q2/E1
gone close S/V1/Q2/E1
bay kept S/V1/Q1
bay gone S/V1/Q2
";

#[test]
fn what_is_gone_is_no_extension(rt: HostRuntime) -> Result<(), Fail> {
    let less = drawing_of(Example::OneEarthed);
    assert!(rt; drawn_so(rt.alloc(), &FED, less, WITHOUT_THE_FEEDER, false)?);
    Ok(())
}

// Stations of one switch, and of none.
#[test]
fn small_stations_are_compared(rt: HostRuntime) -> Result<(), Fail> {
    let one = drawing_of(Example::OneEarthed);
    let same = "same open S/V1/Q1/QC9\nsame close S/V1/Q1/QC9\nbay same S/V1/Q1\n";
    assert!(rt; drawn_so(rt.alloc(), one, one, same, true)?);
    let nothing = drawing_of(Example::Nothing);
    assert!(rt; drawn_so(rt.alloc(), nothing, nothing, "", true)?);
    let new = "new open S/V1/Q1/QC9\nnew close S/V1/Q1/QC9\nbay new S/V1/Q1\n";
    assert!(rt; drawn_so(rt.alloc(), nothing, one, new, true)?);
    Ok(())
}
