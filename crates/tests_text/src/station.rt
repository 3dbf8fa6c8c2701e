//! The text of the tests of a station.
ghost use Rattle.std.specs.Prelude.{◌≡◌, ◌<◌, ◌++◌, All, IfOk, OnOk};
ghost use Rattle.station_graph.specs.Diagram.{part_count};
ghost use Rattle.path_names.specs.Tables.{paths_of};
ghost use Rattle.tests_text.specs.Fitting.{SharedFit};
ghost use Rattle.tests_text.specs.TestsText.{like_lines, shared_lines, station_lines};

use crate::lines::push_part;
use crate::text::push_tests;
use commissioning_tests::SharedTests;
use ilk_base::{BayId, Memory};
use path_names::station_paths;
use piece_writer::NamedText;
use station_graph::Station;
use std::alloc::Global;

// Appends the lines of the bays that are like the one before.
fn push_like(text: &mut NamedText, station: &Station, bays: &[BayId]) -> Result<(), Memory>
    requires names { text.old.names ≡ paths_of station.now }
    requires within { All (λ b. b.0 < part_count station.now) bays.now }
    ensures ok { OnOk result (text.new.text ≡ text.old.text ++ like_lines station.now bays.now) }
    ensures names { text.new.names ≡ text.old.names }
{
    for bay in bays {
        push_part(text, b"like ", station, *bay)?;
    }
    Ok(())
}

// Appends the lines of a bay that has tests of its own.
fn push_shared(text: &mut NamedText, station: &Station, shared: &SharedTests) -> Result<(), Memory>
    requires names { text.old.names ≡ paths_of station.now }
    requires fits { SharedFit station.now shared.now }
    ensures ok { OnOk result (text.new.text ≡ text.old.text ++ shared_lines station.now shared.now) }
    ensures names { text.new.names ≡ text.old.names }
{
    push_part(text, b"bay ", station, shared.bay)?;
    push_like(text, station, &shared.like)?;
    push_tests(text, station, &shared.tests)
}

/// The text of the tests of a station: for each bay that has tests of its own, in document order, `bay PATH`; `like PATH`
/// for each later bay that is like it, whose tests these are with the two bays exchanged; and the lines that `tests_text`
/// writes below `bay PATH`. Tests of a station fit, by `station_tests_fit`. Time and memory: as `tests_text`, for each
/// of these bays; the paths are held once for all.
pub fn station_tests_text(
    alloc: Global,
    station: &Station,
    tests: &[SharedTests],
) -> Result<NamedText, Memory>
    requires { All (SharedFit station.now) tests.now }
    ensures { IfOk result (λ t. t.text ≡ station_lines station.now tests.now) }
{
    let names = station_paths(alloc, station)?;
    let mut text = NamedText::new(alloc, names);
    for shared in tests {
        push_shared(&mut text, station, shared)?;
    }
    Ok(text)
}
