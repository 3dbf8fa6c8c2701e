//! Whether the judge of a worked station is as is asked.
ghost use Rattle.std.specs.Prelude.{◌≡◌};

use crate::asked::{Asked, Row};
use crate::equations::{has_answers, is_text};
use crate::plans::is_plan;
use release_compile::GraphJudge;
use station_graph::Station;
use std::alloc::Global;
use test_stations::{Example, StationRow};

// Whether the judge of the station is as is asked.
fn is_answered(alloc: Global, station: &Station, judge: &GraphJudge, asked: &Asked) -> bool
    requires { judge.now.diagram ≡ station.now }
{
    match asked {
        Asked::Text(text) => is_text(alloc, station, judge, text),
        Asked::Answers(rows) => matches!(has_answers(alloc, station, judge, rows), Ok(true)),
        Asked::Plan(text, bits) => is_plan(alloc, station, judge, text, bits),
    }
}

impl StationRow for Row {
    fn example(&self) -> Example {
        self.drawing
    }

    fn holds(&self, alloc: Global, station: &Station) -> bool {
        match GraphJudge::build(alloc, station) {
            Ok(judge) => is_answered(alloc, station, &judge, &self.asked),
            Err(_) => false,
        }
    }
}
