//! The laws of the lines.
ghost use Rattle.std.specs.Prelude.{◌≡◌, ◌++◌, ℕ, List, Ok};
ghost use Rattle.station_graph.specs.Diagram.{Diagram};
ghost use Rattle.ssd_read.specs.Elements.{Element};
ghost use Rattle.ssd_read.specs.StandsFor.{station_of};
ghost use Rattle.ssd_read.specs.Whole.{IsDrawing};
ghost use Rattle.station_lines.specs.Rows.{Row, text_of};
ghost use Rattle.station_lines.specs.Lines.{rows_of};
ghost use Rattle.station_lines.specs.Aside.{AreAside};
ghost use Rattle.station_lines.specs.ReadBack.{station_said};

/// What the lines of a drawing say is the station for which it stands, whatever lines of remarks and counts
/// follow.
pub fn said_is_read()
    ensures { (text : List ℕ) (all : List Element) (d : Diagram) (more : List Row)
        → IsDrawing text all → station_of all ≡ Ok d → AreAside more → station_said (rows_of all ++ more) ≡ d }
{}

/// Two drawings whose lines are one text, with what remarks and counts follow, have one station.
pub fn one_text_one_station()
    ensures { (first second : List ℕ) (all other : List Element) (d e : Diagram) (more rest : List Row)
        → IsDrawing first all → station_of all ≡ Ok d → AreAside more
        → IsDrawing second other → station_of other ≡ Ok e → AreAside rest
        → text_of (rows_of all ++ more) ≡ text_of (rows_of other ++ rest) → d ≡ e }
{}
