//! How much is made.
ghost use Rattle.std.specs.Prelude.{◌≡◌, ◌+◌, ◌*◌, ℕ, length};
ghost use Rattle.std.specs.List.{flat_map};
ghost use Rattle.station_make.specs.Layout.{bays, nodes_of, switches};
ghost use Rattle.station_make.specs.EventsText.{events};

/// How many nodes, switches and log records the texts for n feeders have: 3 n + 4, 6 n + 3 and 15 n + 10.
pub fn made_counts()
    ensures nodes { (n : ℕ) → length (flat_map nodes_of (bays n)) ≡ 3 * n + 4 }
    ensures switches { (n : ℕ) → length (switches n) ≡ 6 * n + 3 }
    ensures records { (n : ℕ) → length (events n) ≡ 15 * n + 10 }
{}
