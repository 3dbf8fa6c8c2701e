//! The text of `station`.
ghost use Rattle.std.specs.Prelude.{IfOk};
ghost use Rattle.drawing_remarks.specs.StationText.{IsStationReport};

use crate::counts::push_counts;
use crate::facts::Facts;
use crate::remarks::push_remarks;
use ilk_base::{Memory, Text};
use ssd_read::WholeDrawing;
use station_lines::push_rows;
use std::alloc::Global;

/// What is told of a drawing.
#[derive(Drop)]
pub struct StationReport {
    /// the lines
    pub text: Text,
    /// how many remarks there are
    pub remarks: u32,
}

/// The text of `station`: the station as it was read, in document order; a line for each remark; and counts. The
/// fields of a line are parted by tabs. Time: the elements, the labels of the nodes, and for each node the items of the
/// station; for each loose end the elements once more. Memory: the text's, and the nodes.
pub fn station_text(alloc: Global, whole: &WholeDrawing<'_>) -> Result<StationReport, Memory>
    ensures { IfOk result (IsStationReport whole.now) }
{
    let facts = Facts::new(alloc, whole)?;
    let mut text = Text::new(alloc);
    push_rows(alloc, &mut text, whole)?;
    let remarks = push_remarks(alloc, &mut text, &facts)?;
    push_counts(&mut text, facts.station, remarks)?;
    Ok(StationReport { text, remarks })
}
