//! A station is opened, and closed.
ghost use Rattle.std.specs.Prelude.{◌≡◌, None, Ok, IfOk, IfErr, unwrap_or};
ghost use Rattle.ssd_read.specs.Shown as shown;
ghost use Rattle.ssd_read.specs.StandsFor.{Stands};
ghost use Rattle.release_compile.specs.Judging.{KeepsLimits};
ghost use Rattle.page_judge.specs.Desk.{IsOpen};
ghost use Rattle.page_questions.specs.Drawings.{IsDrawingOf, IsNoStation, IsPastLimits, RefusesDrawing};
ghost use Rattle.page_judge.specs.Opening.{ForShown, Opens};

use crate::desk::Desk;
use crate::kept::Kept;
use crate::told::{DONE, DRAWING, MEMORY, Told};
use release_compile::{BuildRefusal, GraphJudge};
use ssd_read::{SsdRefusal, read_ssd};
use station_graph::Station;
use std::alloc::Global;

// Why a drawing is not opened.
#[derive(Clone, Copy)]
pub(crate) enum DrawingFault {
    Memory,
    Refused { number: u32, place: u32 },
}

// What is shown of a drawing that stands for no station.
fn shown(refusal: &SsdRefusal) -> DrawingFault
    ensures { result ≡ DrawingFault.Refused (unwrap_or (shown.number refusal.now) 0)
        (unwrap_or (shown.place refusal.now) 0) }
{
    DrawingFault::Refused {
        number: u32::from(refusal.number().unwrap_or(0)),
        place: refusal.place().unwrap_or(0),
    }
}

// The station of a drawing, which stays in memory.
fn station_of(alloc: Global, drawing: &[u8]) -> Result<&'static Station, DrawingFault>
    ensures ok { IfOk result (λ s. Stands drawing.now (Ok s.now)) }
    ensures err { IfErr result (λ e. ForShown e (IsNoStation drawing.now)) }
{
    let station = match read_ssd(alloc, drawing) {
        Ok(station) => station,
        Err(SsdRefusal::Memory) => return Err(DrawingFault::Memory),
        Err(refusal) => return Err(shown(&refusal)),
    };
    match Box::new(alloc, station) {
        Ok(place) => Ok(Box::leak(place)),
        Err(_) => Err(DrawingFault::Memory),
    }
}

// The judge of a station.
fn judge_of(alloc: Global, station: &'static Station) -> Result<GraphJudge<'static>, DrawingFault>
    ensures ok { IfOk result (λ j. (j.diagram ≡ station.now) × KeepsLimits j.diagram) }
    ensures err { IfErr result (λ e. ForShown e (IsPastLimits station.now)) }
{
    // Its clause says that it is a station; it does nothing.
    station.is_station();
    match GraphJudge::build(alloc, station) {
        Ok(judge) => Ok(judge),
        Err(BuildRefusal::Memory) => Err(DrawingFault::Memory),
        Err(BuildRefusal::Many { part, .. }) => Err(DrawingFault::Refused {
            number: 16,
            place: u32::from(part.0),
        }),
        Err(BuildRefusal::Wide { bay }) => Err(DrawingFault::Refused {
            number: 17,
            place: u32::from(bay.0),
        }),
    }
}

// The station of a drawing with its judge.
fn kept_of(alloc: Global, drawing: &[u8]) -> Result<Box<Kept>, DrawingFault>
    ensures ok { IfOk result (λ b. IsDrawingOf drawing.now b.value.judge.diagram) }
    ensures err { IfErr result (λ e. ForShown e (RefusesDrawing drawing.now)) }
{
    let station = station_of(alloc, drawing)?;
    let judge = judge_of(alloc, station)?;
    match Box::new(alloc, Kept { judge }) {
        Ok(kept) => Ok(kept),
        Err(_) => Err(DrawingFault::Memory),
    }
}

/// Opens the drawing: its station is read and judged, and kept. What the desk held before is not given back, so it is
/// closed first. Time: that of `read_ssd` and of `GraphJudge::build`. The station of a drawing that is refused for its
/// graphs stays in memory.
#[unsafe(no_mangle)]
pub extern "C" fn page_open(alloc: Global, desk: &mut Desk, drawing: &[u8], told: &mut Told) -> u32
    ensures { Opens drawing.now desk.old.kept desk.new.kept result told.new }
{
    match kept_of(alloc, drawing) {
        Ok(kept) => {
            desk.put(kept);
            DONE
        }
        Err(DrawingFault::Memory) => MEMORY,
        Err(DrawingFault::Refused { number, place }) => {
            told.number = number;
            told.place = place;
            DRAWING
        }
    }
}

/// Gives the memory of the judge back; the desk holds nothing. The station itself stays in memory.
#[unsafe(no_mangle)]
pub extern "C" fn page_close(alloc: Global, desk: &mut Desk)
    requires { IsOpen desk.old.kept }
    ensures { desk.new.kept ≡ None }
{
    drop(desk.take(alloc));
}
