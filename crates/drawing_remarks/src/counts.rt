//! The lines of the counts.
ghost use Rattle.std.specs.Prelude.{◌≡◌, ◌++◌, ◌∷◌, [], OnOk, List, ℕ, codes};
ghost use Rattle.station_lines.specs.Rows.{row_text, text_of};
ghost use Rattle.drawing_remarks.specs.StationText.{count_row, switch_counts, count_rows};

use crate::nodes::{bonds_in, links_in, of_kind};
use ilk_base::{Kind, Memory, Text};
use itoa::Buffer;
use station_graph::Station;
use station_lines::push_three;

// Appends the line of a count.
fn push_count(text: &mut Text, word: &str, count: u32) -> Result<(), Memory>
    ensures { OnOk result (text.new ≡ text.old ++ row_text (count_row word.now count)) }
{
    let mut digits = Buffer::new();
    push_three(
        text,
        b"count",
        word.as_bytes(),
        digits.format(count).as_bytes(),
    )
}

// Appends the lines of the counts of parts, nodes and switches.
fn push_switch_counts(text: &mut Text, station: &Station) -> Result<(), Memory>
    ensures { OnOk result (text.new ≡ text.old ++ text_of (switch_counts station.now)) }
{
    push_count(text, "parts", u32::from(station.part_count()))?;
    push_count(text, "nodes", u32::from(station.node_count()))?;
    push_count(text, "breakers", of_kind(station, Kind::Breaker))?;
    push_count(text, "disconnectors", of_kind(station, Kind::Disconnector))?;
    push_count(text, "earthings", of_kind(station, Kind::Earthing))?;
    push_count(text, "infeeds", of_kind(station, Kind::Infeed))
}

// Appends the lines of all counts.
pub(crate) fn push_counts(text: &mut Text, station: &Station, remarks: u32) -> Result<(), Memory>
    ensures { OnOk result (text.new ≡ text.old ++ text_of (count_rows station.now remarks)) }
{
    push_switch_counts(text, station)?;
    push_count(text, "links", links_in(station))?;
    push_count(text, "bonds", bonds_in(station))?;
    push_count(text, "taps", u32::from(station.tap_count()))?;
    push_count(text, "remarks", remarks)
}
