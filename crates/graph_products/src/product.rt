//! The product of two graphs.
ghost use Rattle.std.specs.Prelude.{◌≡◌, [], ◌∷◌, ℕ, ◌*◌, ◌<◌, ◌≤◌, List, length, map, IfOk, IfErr, IsTrue, IsFalse};
ghost use Rattle.decision_graphs.specs.Label.{layer_at};
ghost use Rattle.graph_products.specs.Products.{pair_of, StepsFit, IsProductOf, IsWide, HasRoom};
ghost use Rattle.graph_products.specs.declared.product.ProductTrouble.TheVariants.{Wide};

use crate::layer::next_layer;
use crate::pair::Pair;
use crate::row::Row;
use decision_graphs::{FinishedLayer, Graph, SharedNumbers};
use ilk_base::Memory;
use std::alloc::{AllocError, AllocFailed, Global};

/// Why a product was not built.
#[derive(Clone, Copy, Debug, PartialEq, Eq)]
pub enum ProductTrouble {
    /// there was no memory
    Memory,
    /// it would have too many edges
    Wide,
}

impl From<Memory> for ProductTrouble {
    ghost use Rattle.std.specs.Prelude.{◌≡◌};
    ghost use Rattle.graph_products.specs.declared.product.ProductTrouble.TheVariants.{Memory};

    ghost from_gives = { λ _ e. e ≡ Memory };

    fn from(_: Memory) -> ProductTrouble {
        ProductTrouble::Memory
    }
}

impl From<AllocError> for ProductTrouble {
    ghost use Rattle.std.specs.Prelude.{◌≡◌};
    ghost use Rattle.graph_products.specs.declared.product.ProductTrouble.TheVariants.{Memory};

    ghost from_gives = { λ _ e. e ≡ Memory };

    fn from(_: AllocError) -> ProductTrouble {
        ProductTrouble::Memory
    }
}

impl<T: Drop> From<AllocFailed<T>> for ProductTrouble {
    ghost use Rattle.std.specs.Prelude.{◌≡◌};
    ghost use Rattle.graph_products.specs.declared.product.ProductTrouble.TheVariants.{Memory};

    ghost from_gives = { λ _ e. e ≡ Memory };

    fn from(_: AllocFailed<T>) -> ProductTrouble {
        ProductTrouble::Memory
    }
}

/// The product of two graphs: a graph whose choices are the rows of each step, and for each of its labels the pair
/// of labels for which it stands.
#[derive(Drop)]
pub struct Product {
    /// the graph of pairs
    pub graph: Graph,
    /// for each label the pair of labels for which it stands
    pub pairs: Vec<Pair>,
}

// The pair of the first nodes alone.
fn first_nodes(alloc: Global) -> Result<Vec<Pair>, Memory>
    ensures { IfOk result (λ v. v.items ≡ pair_of 0 0 ∷ []) }
{
    let mut list = Vec::new(alloc);
    list.push(Pair {
        first: 0,
        second: 0,
    })?;
    Ok(list)
}

// Whether so many nodes with so many choices have more than so many edges.
fn too_many(nodes: usize, choices: usize, most: usize) -> bool
    ensures few { IsFalse result → nodes * choices ≤ most }
    ensures many { IsTrue result → most < nodes * choices }
{
    choices != 0 && nodes > most / choices
}

/// The product of two graphs of as many layers as there are steps, where step j gives the pairs of choices of their
/// layers j that are made together. A list of rows, one of each step, leads in it to the label that stands for the
/// labels to which the choices lead; there is a label for each such pair and for no other. It is `Wide` where it
/// would have more edges than the budget. Time and memory: the edges of the product.
pub fn product_of(
    alloc: Global,
    first: &Graph,
    second: &Graph,
    steps: &[Vec<Row>],
    budget: usize,
) -> Result<Product, ProductTrouble>
    requires steps { StepsFit first.now second.now (map (λ v. v.items) steps.now) }
    requires budget { budget ≤ 4294967295 }
    ensures product { IfOk result (λ p. IsProductOf first.now second.now (map (λ v. v.items) steps.now) p.graph
        p.pairs.items) }
    ensures room { IfOk result (λ p. HasRoom first.now second.now (map (λ v. v.items) steps.now) budget) }
    ensures wide { IfErr result (λ e. e ≡ Wide → IsWide first.now second.now (map (λ v. v.items) steps.now) budget) }
{
    let _first_layers = first.layers();
    let _first_labels = first.labels();
    let _second_labels = second.labels();
    let mut layers = Vec::new(alloc);
    let mut states = first_nodes(alloc)?;
    let mut left = budget;
    'steps: for j in 0..steps.len() {
        let rows = steps[j].as_slice();
        let held = states.as_slice();
        let nodes = held.len();
        let choices = rows.len();
        if too_many(nodes, choices, left) {
            return Err(ProductTrouble::Wide);
        }
        left -= nodes * choices;
        let made = next_layer(alloc, first, second, j as u16, rows, held)?;
        let edges = SharedNumbers::new(alloc, made.edges)?;
        let layer = FinishedLayer {
            choices: choices as u32,
            nodes: nodes as u32,
            edges,
        };
        layers.push(layer)?;
        states = made.next;
    }
    let graph = Graph::from_layers(alloc, states.len() as u32, &layers)?;
    Ok(Product {
        graph,
        pairs: states,
    })
}
