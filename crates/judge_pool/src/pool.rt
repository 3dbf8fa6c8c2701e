//! Values of one view, each kept once.
ghost use Rattle.std.specs.Prelude.{◌≡◌, ℕ, ◌↔◌, ◌++◌, [], ◌∷◌, length, IfOk, OnOk, Contains};
ghost use Rattle.contraction.specs.Answers.{Keeps};
ghost use Rattle.judge_pool.specs.Pooling.{IsPool, GrewTo, HasSame, HasCopy};

use crate::batch::{ListStand, Stand};
use crate::known::{KnownLayer, LayerKey};
use crate::notes::BatchNotes;
use crate::view::{View, row_in};
use contraction::{Contraction, EmptyViews, Selection};
use ilk_base::{Memory, Text};
use number_hash::{NumberHash, NumberMap};
use station_graph::NodeList;
use std::alloc::Global;
use std::collections::HashMap;
use std::collections::hash_map::Entry;

/// Values of one view, each once, with lists of nodes that values are to keep. Batches of compositions stand one behind
/// the other, and where each begins is noted, so that none is made twice, but for those that were forgotten when they
/// were many; so are the layers of graphs, by the numbers of the lists of their states and letters, and what a value is
/// on other nodes, and a list of values, by its number. The selection of the last composition is at hand for the next,
/// which is mostly of values on the same nodes; so are the kept nodes of the last value made, with the empty views that
/// were its other view.
#[derive(Drop)]
pub struct Pool {
    /// the view
    pub view: View,
    /// the values, by number
    pub values: Vec<Contraction>,
    pub(crate) index: NumberMap<Text, usize>,
    /// the lists of nodes, by number
    pub keeps: Vec<NodeList>,
    pub(crate) keep_numbers: NumberMap<Vec<u16>, usize>,
    pub(crate) letters: Vec<Vec<u32>>,
    pub(crate) letter_places: NumberMap<u64, usize>,
    pub(crate) layers: Vec<KnownLayer>,
    pub(crate) layer_places: NumberMap<LayerKey, usize>,
    pub(crate) made: Vec<usize>,
    pub(crate) notes: BatchNotes,
    pub(crate) selection: Option<Box<Selection>>,
    pub(crate) empty_views: Option<EmptyViews>,
    pub(crate) seats: Option<Vec<usize>>,
    pub(crate) stands: NumberMap<Stand, usize>,
    pub(crate) list_stands: NumberMap<ListStand, usize>,
}

impl Pool {
    /// A pool without values and lists of nodes.
    pub fn new(alloc: Global, view: View) -> Pool
        ensures pool { IsPool result }
        ensures view { result.view ≡ view }
        ensures empty { result.values.items ≡ [] }
    {
        Pool {
            view,
            values: Vec::new(alloc),
            index: HashMap::with_hasher(alloc, NumberHash::new()),
            keeps: Vec::new(alloc),
            keep_numbers: HashMap::with_hasher(alloc, NumberHash::new()),
            letters: Vec::new(alloc),
            letter_places: HashMap::with_hasher(alloc, NumberHash::new()),
            layers: Vec::new(alloc),
            layer_places: HashMap::with_hasher(alloc, NumberHash::new()),
            made: Vec::new(alloc),
            notes: BatchNotes::new(alloc),
            selection: None,
            empty_views: None,
            seats: None,
            stands: HashMap::with_hasher(alloc, NumberHash::new()),
            list_stands: HashMap::with_hasher(alloc, NumberHash::new()),
        }
    }

    /// The number of the value that is the same in the view, which is put last where there is none.
    pub fn intern(&mut self, alloc: Global, value: Contraction) -> Result<usize, Memory>
        requires { IsPool self.old }
        ensures grew { OnOk result (GrewTo self.old self.new) }
        ensures same { IfOk result (HasSame self.new value) }
    {
        let row = row_in(alloc, self.view, &value)?;
        match self.index.entry(row)? {
            Entry::Occupied(entry) => Ok(*entry.get()),
            Entry::Vacant(entry) => {
                let place = self.values.len();
                self.values.push(value)?;
                entry.insert(place);
                Ok(place)
            }
        }
    }

    /// The number of a copy of the value, which keeps these nodes.
    pub fn copy(
        &mut self,
        alloc: Global,
        value: &Contraction,
        nodes: &NodeList,
    ) -> Result<usize, Memory>
        requires pool { IsPool self.old }
        requires nodes { (n : ℕ) → Keeps value.now.kept n ↔ Contains nodes.now n }
        ensures grew { OnOk result (GrewTo self.old self.new) }
        ensures copy { IfOk result (HasCopy self.new value.now) }
    {
        let same = value.keep_only(alloc, nodes)?;
        let id = self.intern(alloc, same)?;
        Ok(id)
    }
}
