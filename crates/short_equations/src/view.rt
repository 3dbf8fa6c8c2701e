//! The views of a station.
ghost use Rattle.std.specs.Prelude.{◌≡◌};
ghost use Rattle.short_equations.specs.Sights.{step_in};

use ilk_base::Kind;

/// What is looked at.
#[derive(Clone, Copy, PartialEq, Eq)]
pub enum View {
    /// what is coupled: breakers count as closed; the marks are closed infeeds and closed earthing switches
    Gap,
    /// what is joined; the marks are closed infeeds and taps
    Load,
    /// what is bonded, without marks
    Bond,
}

/// What a switch is in a view.
#[derive(Clone, Copy, PartialEq, Eq)]
pub enum Step {
    /// nothing
    Nothing,
    /// a way between its ends
    Ends,
    /// a way between its ends where it is closed
    ClosedEnds,
    /// the first mark at its node where it is closed
    FirstMark,
    /// the second mark at its node where it is closed
    SecondMark,
}

// What a switch of this kind is in the view.
pub(crate) fn step_of(view: View, kind: Kind) -> Step
    ensures { result ≡ step_in view kind }
{
    match (view, kind) {
        (View::Gap, Kind::Breaker) => Step::Ends,
        (_, Kind::Breaker | Kind::Disconnector) => Step::ClosedEnds,
        (View::Gap, Kind::Earthing) => Step::SecondMark,
        (View::Gap | View::Load, Kind::Infeed) => Step::FirstMark,
        (_, Kind::Earthing | Kind::Infeed) => Step::Nothing,
    }
}
