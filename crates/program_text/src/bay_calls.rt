//! Which calls of a program are for a bay.
ghost use Rattle.std.specs.Prelude.{◌≡◌};
ghost use Rattle.program_text.specs.BayCalls.{is_of_bay, is_for};

use ilk_base::BayId;
use program_blocks::Step;
use structured_text::Heading;

/// Whether the comment is above the signals or the releases of the bay.
pub(crate) fn is_of_bay(bay: BayId, heading: Option<Heading>) -> bool
    ensures { result ≡ is_of_bay bay.0 heading }
{
    match heading {
        None => false,
        Some(Heading::Signals(other)) => other.0 == bay.0,
        Some(Heading::Together) => false,
        Some(Heading::Releases(other)) => other.0 == bay.0,
    }
}

/// Whether the step is a call for the bay.
pub(crate) fn is_for(bay: BayId, step: &Step) -> bool
    ensures { result ≡ is_for bay.0 step.now }
{
    match step {
        Step::Assign(_) => false,
        Step::Call(call) => is_of_bay(bay, call.heading),
    }
}
