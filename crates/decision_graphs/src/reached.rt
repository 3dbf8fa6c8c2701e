//! Which labels of a graph some list of allowed choices reaches.
ghost use Rattle.std.specs.Prelude.{◌≡◌, ◌<◌};
ghost use Rattle.std.specs.Prelude.{IfOk, MatchOption};
ghost use Rattle.decision_graphs.specs.Label.{Reaches};
ghost use Rattle.decision_graphs.specs.Reaching.{AreSetsOf, MarksReached, IsPathTo};
ghost use Rattle.decision_graphs.specs.Marked.{AreMarksOf, PathsLead};

use crate::choices::ChoiceList;
use crate::graph::Graph;
use crate::marks::Marks;
use crate::sets::ChoiceSets;
use ilk_base::Memory;
use std::alloc::Global;

impl Graph {
    /// Marks exactly the labels to which some list of allowed choices leads, whatever was marked before, and
    /// notes such a list for each of them. Where a layer has no allowed choice there is no such list, and no
    /// label is marked. The sets and the marks were made for this graph. Linear in edges and nodes; takes no
    /// memory.
    pub fn reach(&self, sets: &ChoiceSets, marks: &mut Marks)
        requires sets { AreSetsOf self.now.layers sets.now }
        requires marks { AreMarksOf self.now marks.old }
        ensures same { AreMarksOf self.now marks.new }
        ensures exact { MarksReached self.now sets.now marks.new.labels }
        ensures paths { PathsLead self.now sets.now marks.new }
    {
        marks.mark(self, sets);
    }

    /// A list of allowed choices that leads to the label, None exactly where no such list does. The sets
    /// were made for this graph. Linear in edges and nodes, with nine bytes for each node and label. Where
    /// paths to more than one label are wanted, `reach` finds all of them at once.
    pub fn path_to(
        &self,
        alloc: Global,
        sets: &ChoiceSets,
        label: u32,
    ) -> Result<Option<ChoiceList>, Memory>
        requires sets { AreSetsOf self.now.layers sets.now }
        requires label { label < self.now.labels }
        ensures { IfOk result (λ o. MatchOption o (Reaches self.now sets.now label → ⊥)
            (λ p. IsPathTo self.now sets.now label p)) }
    {
        let mut marks = Marks::new(alloc, self)?;
        self.reach(sets, &mut marks);
        if !marks.marked(label) {
            return Ok(None);
        }
        let path = marks.path_to(alloc, label)?;
        Ok(Some(path))
    }
}
