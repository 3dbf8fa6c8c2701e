//! The limits of walks.
ghost use Rattle.std.specs.Prelude.{◌≡◌, ◌*◌, ◌≤◌};
ghost use Rattle.change_search.specs.Limits.{walk_limit as limit_of};

/// How many edges a walk may have, however few switches are walked.
pub const WALK_EDGES: usize = 8_000_000;
/// How many edges the walks of all switches that are walked may have together.
pub const ALL_WALK_EDGES: usize = 280_000_000;

/// How many edges a walk may have where so many switches are walked, and each of its graphs before it is reduced.
pub fn walk_limit(switches: u16) -> usize
    ensures limit { result ≡ limit_of switches }
    ensures one { result ≤ WALK_EDGES }
    ensures all { result * switches ≤ ALL_WALK_EDGES }
{
    (ALL_WALK_EDGES / usize::from(switches.max(1))).min(WALK_EDGES)
}
