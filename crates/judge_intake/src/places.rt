//! Values that speak of places in a list of nodes, so that those of like bays are the same.
ghost use Rattle.std.specs.Prelude.{◌≡◌, ℕ, ◌<◌, ◌≤◌, length, map, slice_get, Some, OnOk, IfOk, Contains};
ghost use Rattle.contraction.specs.Answers.{Answers, Keeps, AreNodes, IsContraction};
ghost use Rattle.contraction.specs.Renaming.{mapped};
ghost use Rattle.judge_pool.specs.Pooling.{IsPool, GrewTo, HasSame, HasCopy};
ghost use Rattle.judge_pool.specs.Places.{node_listed, pool_on};
ghost use Rattle.judge_intake.specs.Inputs.{AreCopies};
ghost use Rattle.judge_pool.specs.Layering.{values_at};
ghost use Rattle.station_graph.specs.declared.limits.TheConstants.{NODES};

use contraction::Contraction;
use ilk_base::{Memory, NodeId};
use judge_pool::Pool;
use station_graph::NodeList;
use std::alloc::Global;

// The place of a node in a list that has it.
fn place_in(list: &[u16], node: u16) -> usize
    requires { Keeps list.now node }
    ensures { slice_get list.now result ≡ Some node }
{
    let mut place = 0;
    'seeking: while list[place] != node {
        place += 1;
    }
    place
}

// The places of these nodes in a list that has them.
pub(crate) fn places_of(alloc: Global, list: &NodeList, nodes: &[u16]) -> Result<NodeList, Memory>
    requires few { length list.now ≤ NODES }
    requires has { (n : ℕ) → Keeps nodes.now n → Contains list.now n }
    ensures { IfOk result (λ places. map (node_listed list.now) places ≡ nodes.now) }
{
    let all = list.numbers();
    let mut places = NodeList::new(alloc);
    for k in 0..nodes.len() {
        let place = place_in(all, nodes[k]);
        places.push(NodeId(place as u16))?;
    }
    Ok(places)
}

// The nodes at these places of the list.
fn nodes_at(alloc: Global, list: &NodeList, places: &[u16]) -> Result<NodeList, Memory>
    requires { (p : ℕ) → Keeps places.now p → p < length list.now }
    ensures { IfOk result (λ nodes. nodes ≡ map (node_listed list.now) places.now) }
{
    let mut nodes = NodeList::new(alloc);
    for k in 0..places.len() {
        let place = usize::from(places[k]);
        nodes.push(list.get(place))?;
    }
    Ok(nodes)
}

// The value, with places of the list in place of the nodes at them.
fn in_places(alloc: Global, list: &NodeList, value: &Contraction) -> Result<Contraction, Memory>
    requires nodes { AreNodes list.now }
    requires has { (n : ℕ) → Keeps value.now.kept n → Contains list.now n }
    ensures mapped { IfOk result (λ c. mapped (node_listed list.now) c ≡ value.now) }
    ensures answers { IsContraction value.now }
{
    let nodes = value.nodes();
    let places = places_of(alloc, list, nodes)?;
    let moved = value.renamed(alloc, &places)?;
    Ok(moved)
}

// The value, with nodes of the list in place of their places.
pub(crate) fn on_nodes(
    alloc: Global,
    list: &NodeList,
    value: &Contraction,
) -> Result<Contraction, Memory>
    requires nodes { AreNodes list.now }
    requires within { (p : ℕ) → Keeps value.now.kept p → p < length list.now }
    ensures { IfOk result (λ c. c ≡ mapped (node_listed list.now) value.now) }
{
    let places = value.nodes();
    let nodes = nodes_at(alloc, list, places)?;
    let actual = value.renamed(alloc, &nodes)?;
    Ok(actual)
}

// The number of the value that is the same in the view, with places of the list in place of nodes.
pub(crate) fn intern_in_places(
    alloc: Global,
    pool: &mut Pool,
    list: &NodeList,
    value: &Contraction,
) -> Result<usize, Memory>
    requires pool { IsPool pool.old }
    requires nodes { AreNodes list.now }
    requires has { (n : ℕ) → Keeps value.now.kept n → Contains list.now n }
    ensures grew { OnOk result (GrewTo pool.old pool.new) }
    ensures same { IfOk result (HasSame (pool_on (node_listed list.now) pool.new) value.now) }
{
    let moved = in_places(alloc, list, value)?;
    let id = pool.intern(alloc, moved)?;
    Ok(id)
}

// The number of a copy of the value of this number, with places of the list in place of nodes.
fn copy_in_places(
    alloc: Global,
    pool: &mut Pool,
    list: &NodeList,
    id: usize,
) -> Result<usize, Memory>
    requires pool { IsPool pool.old }
    requires nodes { AreNodes list.now }
    requires within { id < length pool.old.values.items }
    requires has { (x : Answers) → slice_get pool.old.values.items id ≡ Some x → (n : ℕ) → Keeps x.kept n →
        Contains list.now n }
    ensures grew { OnOk result (GrewTo pool.old pool.new) }
    ensures copy { IfOk result (λ t. (x : Answers) → slice_get pool.old.values.items id ≡ Some x →
        HasCopy (pool_on (node_listed list.now) pool.new) x t) }
{
    let value = &pool.values[id];
    let moved = in_places(alloc, list, value)?;
    let place = pool.intern(alloc, moved)?;
    Ok(place)
}

// The numbers of copies of the values of these numbers, with places of the list in place of nodes.
pub(crate) fn names_in_places(
    alloc: Global,
    pool: &mut Pool,
    list: &NodeList,
    names: &[usize],
) -> Result<Vec<usize>, Memory>
    requires pool { IsPool pool.old }
    requires nodes { AreNodes list.now }
    requires within { (t i : ℕ) → slice_get names.now t ≡ Some i → i < length pool.old.values.items }
    requires has { (t : ℕ) (x : Answers) → slice_get (values_at pool.old.values.items names.now) t ≡ Some x → (n : ℕ) →
        Keeps x.kept n → Contains list.now n }
    ensures grew { OnOk result (GrewTo pool.old pool.new) }
    ensures copies { IfOk result (λ v. AreCopies (pool_on (node_listed list.now) pool.new)
        (values_at pool.old.values.items names.now) v.items) }
{
    let mut ids = Vec::new(alloc);
    for t in 0..names.len() {
        let name = names[t];
        let id = copy_in_places(alloc, pool, list, name)?;
        ids.push(id)?;
    }
    Ok(ids)
}
