//! A drawing that is read whole: its elements, the ends of each, and its station.
ghost use Rattle.std.specs.Prelude.{◌≡◌, ◌<◌, length, IfOk, IfErr, Ok, Err, None};
ghost use Rattle.station_graph.specs.Diagram.{IsStation};
ghost use Rattle.ssd_read.specs.Drawn.{IsDrawn};
ghost use Rattle.ssd_read.specs.Elements.{elements_of};
ghost use Rattle.ssd_read.specs.Ends.{ends_of};
ghost use Rattle.ssd_read.specs.Names.{root_fault};
ghost use Rattle.ssd_read.specs.PathBytes.{paths_fault};
ghost use Rattle.ssd_read.specs.Steps.{winding_ends_of};
ghost use Rattle.ssd_read.specs.StandsFor.{station_of, TellsStation, TreeAnswers, ElementsAnswer};
ghost use Rattle.ssd_read.specs.Whole.{HasStation, IsDrawing, ReadsTree};

use crate::build::build;
use crate::checks::check_ends;
use crate::drawing::Drawing;
use crate::end_lists::EndLists;
use crate::ends::all_ends;
use crate::names::check_names;
use crate::read::root_fault;
use crate::refusal::SsdRefusal;
use crate::terminal_place::TerminalPlace;
use ilk_base::FILE_BYTES;
use ssd_text::{Tree, read_text};
use station_graph::{Station, What};
use std::alloc::Global;
use std::marker::Model;

/// A drawing without faults, seen as the list of its elements.
#[derive(Drop)]
pub struct WholeDrawing<'a> {
    drawing: Drawing<'a>,
    own: EndLists,
    windings: EndLists,
    station: Station,
}

impl<'a> Model for WholeDrawing<'a> {
    ghost use Rattle.std.specs.Prelude.{List};
    ghost use Rattle.ssd_read.specs.Elements.{Element};

    ghost Value = { List Element };

    ghost view = { λ w. w.drawing };

    ghost use Rattle.ssd_read.specs.Whole.{IsWhole};

    ghost invariant = { λ w. IsWhole w.drawing w.own w.windings w.station };
}

impl<'a> WholeDrawing<'a> {
    /// Its elements, at once.
    pub fn drawing(&self) -> &Drawing<'a>
        ensures elements { result.now ≡ self.now }
        ensures drawn { IsDrawn self.now }
    {
        &self.drawing
    }

    /// Its station, at once.
    pub fn station(&self) -> &Station
        ensures stands { station_of self.now ≡ Ok result.now }
        ensures station { IsStation result.now }
        ensures drawn { IsDrawn self.now }
    {
        &self.station
    }

    /// The ends of the element of this number, at once.
    pub fn ends(&self, i: u32) -> &[TerminalPlace]
        requires { i < length self.now }
        ensures { result.now ≡ ends_of self.now i }
    {
        self.own.of(i)
    }

    /// The ends of the windings of the element of this number, at once.
    pub fn winding_ends(&self, i: u32) -> &[TerminalPlace]
        requires { i < length self.now }
        ensures { result.now ≡ winding_ends_of self.now i }
    {
        self.windings.of(i)
    }
}

// The whole of a drawing whose root is right.
fn whole_of_drawing<'a>(alloc: Global, drawing: Drawing<'a>) -> Result<WholeDrawing<'a>, SsdRefusal>
    requires paths { paths_fault drawing ≡ None }
    ensures ok { IfOk result (λ all. (all ≡ drawing.entry) × HasStation all) }
    ensures err { IfErr result (λ e. ElementsAnswer drawing.entry (Err e)) }
{
    let keys = match check_names(alloc, &drawing) {
        Ok(keys) => keys,
        Err(fault) => return Err(fault),
    };
    let (own, windings) = all_ends(alloc, &drawing, &keys)?;
    match check_ends(alloc, &drawing, &own) {
        Ok(()) => {}
        Err(fault) => return Err(fault),
    }
    let station = match build(alloc, &drawing, &own, &windings) {
        Ok(station) => station,
        Err(fault) => return Err(fault),
    };
    // Their clauses say that it is a station, and that the elements are those of a tree; they do nothing.
    station.is_station();
    let _count = drawing.count();
    Ok(WholeDrawing {
        drawing,
        own,
        windings,
        station,
    })
}

// The whole of a tree.
fn whole_of_tree<'a>(alloc: Global, tree: Tree<'a>) -> Result<WholeDrawing<'a>, SsdRefusal>
    ensures ok { IfOk result (ReadsTree tree.entry) }
    ensures err { IfErr result (λ e. TreeAnswers tree.entry (Err e)) }
{
    if let Some(fault) = root_fault(&tree) {
        return Err(fault);
    }
    match Drawing::new(alloc, tree) {
        Ok(drawing) => whole_of_drawing(alloc, drawing),
        Err(fault) => Err(fault),
    }
}

/// A drawing without faults, as its elements, the ends of each, and the station for which it stands; or the
/// first thing that is wrong with it, which is that of `read_ssd`. So are its time and its memory.
pub fn read_whole<'a>(alloc: Global, bytes: &'a [u8]) -> Result<WholeDrawing<'a>, SsdRefusal>
    ensures ok { IfOk result (IsDrawing bytes.now) }
    ensures err { IfErr result (λ e. TellsStation bytes.now (Err e)) }
{
    if bytes.len() > FILE_BYTES {
        return Err(SsdRefusal::Limit {
            what: What::Bytes,
            count: FILE_BYTES as u32 + 1,
        });
    }
    match read_text(alloc, bytes) {
        Ok(tree) => whole_of_tree(alloc, tree),
        Err(fault) => Err(SsdRefusal::from(fault)),
    }
}
