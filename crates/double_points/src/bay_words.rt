//! The words of one bay, as a value of its own.
ghost use Rattle.std.specs.Prelude.{◌≡◌, ◌≤◌, length, Some, slice_get};
ghost use Rattle.station_graph.specs.declared.limits.TheConstants.{BAY_SWITCHES};
ghost use Rattle.station_graph.specs.Diagram.{switches_in, place_in};
ghost use Rattle.station_graph.specs.Connection.{a_switch};
ghost use Rattle.station_graph.specs.Sharing.{OfPart};

use ilk_base::{BayId, Dbpos, SwitchId};
use station_graph::Station;
use station_graph::limits::BAY_SWITCHES;
use std::marker::Model;

/// The words of one bay's switches, in their order, seen as the list of these words. There is room for the
/// most switches of a bay, kept in place: it takes no memory, and a copy is made at once.
#[derive(Clone, Copy)]
pub struct BayWords {
    words: [Dbpos; BAY_SWITCHES],
    count: usize,
}

impl Model for BayWords {
    ghost use Rattle.std.specs.Prelude.{List, ℕ, take, length, ◌++◌, ◌-◌, ◌≡◌};
    ghost use Rattle.std.proofs.Common.{◌∙◌, ap};
    ghost use Rattle.std.proofs.Math.ListN.{replicate};
    ghost use Rattle.ilk_base.specs.declared.words.Dbpos.{Dbpos};
    ghost use Rattle.ilk_base.specs.declared.words.Dbpos.TheVariants.{Lost};
    ghost use Rattle.station_graph.specs.declared.limits.TheConstants.{BAY_SWITCHES};
    ghost use Rattle.double_points.specs.Filled.{IsFilled, held_count, filled_again};

    ghost Value = { List Dbpos };

    ghost view = { λ r. take r.count r.words };

    ghost invariant = { λ r. IsFilled Lost BAY_SWITCHES r.words r.count };

    ghost inverse = { λ xs. record { words = xs ++ replicate (BAY_SWITCHES - length xs) Lost; count = length xs } };

    ghost inverse_ok = { λ a h.
        ap {B = Inside} (λ (w : List Dbpos). record { words = w; count = length (take a.count a.words) })
        (filled_again Lost BAY_SWITCHES a.words a.count h)
        ∙ ap {B = Inside} (λ (k : ℕ). record { words = a.words; count = k })
        (held_count Lost BAY_SWITCHES a.words a.count h) };
}

impl BayWords {
    // These words.
    pub(crate) fn new(words: &[Dbpos]) -> BayWords
        requires { length words.now ≤ BAY_SWITCHES }
        ensures { result ≡ words.now }
    {
        let mut row = [Dbpos::Lost; BAY_SWITCHES];
        row[..words.len()].copy_from_slice(words);
        BayWords {
            words: row,
            count: words.len(),
        }
    }

    /// The word of a switch of the bay, at once.
    pub fn word(&self, station: &Station, bay: BayId, id: SwitchId) -> Dbpos
        requires all { length self.now ≡ switches_in station.now bay.0 }
        requires switch { OfPart station.now bay.0 (a_switch id.0) }
        ensures { slice_get self.now (place_in station.now bay.0 id.0) ≡ Some result }
    {
        let (first, _) = station.switches_of(bay);
        self.words[..self.count][usize::from(id.0 - first.0)]
    }
}
