//! Whether a bay is a partner of another, as its graphs were found to tell.
ghost use Rattle.std.specs.Prelude.{◌≡◌, ◌≢◌, ℕ, ◌≤◌, length, slice_index_or, false, IsTrue, IsFalse};
ghost use Rattle.station_graph.specs.Alike.{Partner, Irrelevant};
ghost use Rattle.central_rules.specs.Meaning.{IsBay};
ghost use Rattle.judge_pool.specs.Graphs.{other_of};

use crate::build::GraphJudge;
use ilk_base::BayId;

// What the list of a bay's other parts says of another.
fn told_at(told: &[bool], bay: BayId, other: BayId) -> bool
    requires apart { other.0 ≢ bay.0 }
    requires bay { bay.0 ≤ length told.now }
    requires other { other.0 ≤ length told.now }
    ensures { (j : ℕ) → other_of 0 bay.0 j ≡ other.0 → result ≡ slice_index_or told.now j false }
{
    let place = if other.0 < bay.0 {
        other.0 as usize
    } else {
        other.0 as usize - 1
    };
    told[place]
}

// Whether the bay is a partner of the other.
pub(crate) fn is_partner(judge: &GraphJudge, bay: BayId, to: BayId) -> bool
    requires bay { IsBay judge.now.diagram bay.0 }
    requires to { IsBay judge.now.diagram to.0 }
    requires other { bay.0 ≢ to.0 }
    ensures partner { IsTrue result → Partner judge.now.diagram bay.0 to.0 }
    ensures other { IsFalse result → Irrelevant judge.now.diagram bay.0 to.0 }
{
    let graphs = judge.bay(to);
    told_at(&graphs.told, to, bay)
}
