//! The choices that are allowed where some layers are held at their first choice.
ghost use Rattle.std.specs.Prelude.{◌≡◌, ◌<◌, Bool, true, false, [], ◌∷◌, length, map, replicate, slice_set, IfOk, OnOk};
ghost use Rattle.decision_graphs.specs.Label.{Layer};
ghost use Rattle.decision_graphs.specs.Reaching.{AreSetsOf, set_at, empty_sets};
ghost use Rattle.graph_walks.specs.Walks.{set_for};

use decision_graphs::{ChoiceSets, Graph};
use ilk_base::Memory;
use std::alloc::Global;

// Allows the first choice of a layer, and the second where it is free.
fn allow(sets: &mut ChoiceSets, layer: u16, free: bool)
    requires layer { layer < length sets.old }
    requires none { set_at sets.old layer ≡ false ∷ false ∷ [] }
    ensures { sets.new ≡ slice_set sets.old layer (set_for free) }
{
    sets.allow(layer, 0);
    if free {
        sets.allow(layer, 1);
    }
}

/// In each layer of two choices the first, and in a layer that is free the second too. Takes one byte for each choice of
/// each layer.
pub fn allowed_sets(alloc: Global, graph: &Graph, free: &[bool]) -> Result<ChoiceSets, Memory>
    requires { map (λ (x : Layer). x.choices) graph.now.layers ≡ replicate (length free.now) 2 }
    ensures sets { IfOk result (λ s. s ≡ map set_for free.now) }
    ensures fit { IfOk result (AreSetsOf graph.now.layers) }
{
    let mut sets = ChoiceSets::new(alloc, graph)?;
    let layers = graph.layers();
    for j in 0..layers {
        allow(&mut sets, j, free[j as usize]);
    }
    Ok(sets)
}
