//! The whole file.

ghost use Rattle.std.specs.Prelude.{◌≡◌, length, List, ℕ, Result, None};
ghost use Rattle.station_graph.specs.Diagram.{Diagram};
ghost use Rattle.ssd_read.specs.declared.refusal.SsdRefusal.{SsdRefusal as Refusal};
ghost use Rattle.ssd_read.specs.StandsFor.{TellsStation, TreeAnswers, ElementsAnswer, Stands};
ghost use Rattle.ssd_read.specs.Names.{root_fault};
ghost use Rattle.ssd_read.specs.PathBytes.{paths_fault};

use crate::attributes::entry;
use crate::build::build;
use crate::checks::check_ends;
use crate::drawing::Drawing;
use crate::ends::all_ends;
use crate::names::check_names;
use crate::refusal::SsdRefusal;
use crate::role::{front_of, is_named};
use ilk_base::FILE_BYTES;
use ssd_text::{Tree, read_text};
use station_graph::{Station, What};
use std::alloc::Global;

/// The station for which the bytes of a single-line diagram stand (an SSD file of IEC 61850-6), or the
/// first thing that is wrong with it.
///
/// A file of more than 8,388,608 bytes is refused before it is looked at. Then come the faults of the
/// text and that of the root; then paths of more than 67,108,864 bytes together; then, over all elements
/// in document order, the faults of names; then, over all equipment and windings, those of terminals; then
/// the first count that passes a limit of a station.
///
/// Time and memory are those of the text, and of the paths of all named elements written out, each of
/// which is the names from its substation downward: of 64 MiB and one path at most, since the limit of
/// paths is judged as they are written. `Memory` is want of memory alone.
pub fn read_ssd(alloc: Global, bytes: &[u8]) -> Result<Station, SsdRefusal>
    ensures { TellsStation bytes.now result }
{
    if bytes.len() > FILE_BYTES {
        return Err(SsdRefusal::Limit {
            what: What::Bytes,
            count: FILE_BYTES as u32 + 1,
        });
    }
    match read_text(alloc, bytes) {
        Ok(tree) => station_of(alloc, tree),
        Err(fault) => Err(SsdRefusal::from(fault)),
    }
}

// The station of a tree.
fn station_of(alloc: Global, tree: Tree<'_>) -> Result<Station, SsdRefusal>
    ensures { TreeAnswers tree.entry result }
{
    if let Some(fault) = root_fault(&tree) {
        return Err(fault);
    }
    match Drawing::new(alloc, tree) {
        Ok(drawing) => station_of_drawing(alloc, &drawing),
        Err(fault) => Err(fault),
    }
}

// The fault of the root's name.
pub(crate) fn root_fault(tree: &Tree<'_>) -> Option<SsdRefusal>
    ensures { result ≡ root_fault tree.now }
{
    if tree.count() == 0 {
        return None;
    }
    let root = entry(tree, 0);
    if is_named(root.name, front_of(root.name.as_bytes()), "SCL") {
        None
    } else {
        Some(SsdRefusal::Root { at: root.at })
    }
}

// The station of a drawing whose root is right.
fn station_of_drawing(alloc: Global, drawing: &Drawing<'_>) -> Result<Station, SsdRefusal>
    requires paths { paths_fault drawing.now ≡ None }
    ensures { ElementsAnswer drawing.now result }
{
    let keys = match check_names(alloc, drawing) {
        Ok(keys) => keys,
        Err(fault) => return Err(fault),
    };
    let (own, windings) = all_ends(alloc, drawing, &keys)?;
    match check_ends(alloc, drawing, &own) {
        Ok(()) => {}
        Err(fault) => return Err(fault),
    }
    build(alloc, drawing, &own, &windings)
}
