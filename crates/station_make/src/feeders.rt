//! A number of feeders.
ghost use Rattle.std.specs.Prelude.{◌≤◌};
ghost use Rattle.station_make.specs.declared.limits.TheConstants.{LEAST_FEEDERS, MOST_FEEDERS};

/// A number of feeders that can be made: from `LEAST_FEEDERS` to `MOST_FEEDERS`.
#[derive(Clone, Copy)]
pub struct Feeders {
    /// the number
    pub number: u8,
    ghost least: { LEAST_FEEDERS ≤ number },
    ghost most: { number ≤ MOST_FEEDERS },
}
