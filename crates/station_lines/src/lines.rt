//! The lines of all elements.
ghost use Rattle.std.specs.Prelude.{◌≡◌, ◌++◌, OnOk};
ghost use Rattle.station_lines.specs.Rows.{text_of};
ghost use Rattle.station_lines.specs.Lines.{rows_of};

use crate::steps::push_element;
use ilk_base::{Memory, Text};
use ssd_read::WholeDrawing;
use std::alloc::Global;

/// Appends the station as it was read, in lines: for each element of the drawing in document order the line of
/// the part or node that it is, and then those of what it gives. The fields of a line are parted by tabs. Time: the
/// elements, and the text's length. Memory: the text's.
pub fn push_rows(alloc: Global, text: &mut Text, whole: &WholeDrawing<'_>) -> Result<(), Memory>
    ensures { OnOk result (text.new ≡ text.old ++ text_of (rows_of whole.now)) }
{
    for i in 0..whole.drawing().count() {
        push_element(alloc, text, whole, i)?;
    }
    Ok(())
}
