//! Classes of numbers under a relation, made edge by edge.
ghost use Rattle.std.specs.Prelude.{◌≡◌, ◌==◌, ℕ, ◌<◌, List, length, map, slice_index, EachIndex, IfOk, if◌then◌else◌};
ghost use Rattle.station_graph.specs.Classes.{merged};

use crate::nodes::NodeList;
use ilk_base::Memory;
use std::alloc::Global;
use std::marker::Model;

/// The numbers from 0 in classes, seen as the list of labels: the label of a number is the least
/// number of its class. It serves whoever joins nodes by edges, whatever the edges mean: begin with
/// `alone`, `merge` the two ends of each edge, and the labels are those of the least numbers to which
/// the edges lead. The lemmas `KeepsLabels-alone`, `KeepsLabels-merged` and `LabelsLeast-from_keeps`
/// of this crate prove it, over any relation.
#[derive(Drop)]
pub struct Classes {
    labels: Vec<u16>,
}

impl Model for Classes {
    ghost Value = { List ℕ };

    ghost view = { λ c. c.labels.items };
}

impl Classes {
    /// Each of the first `count` numbers alone. Time and memory: `count`.
    pub fn alone(alloc: Global, count: u16) -> Result<Classes, Memory>
        ensures count { IfOk result (λ c. length c ≡ count) }
        ensures alone { IfOk result (λ c. EachIndex c (λ k. slice_index c k ≡ k)) }
    {
        let mut labels = Vec::with_capacity(alloc, count as usize)?;
        for number in 0..count {
            labels.push(number)?;
        }
        Ok(Classes { labels })
    }

    /// Makes the classes of two numbers one. Time: one step where they are one already, so in time of
    /// all numbers at most as often as there are numbers.
    pub fn merge(&mut self, a: u16, b: u16)
        requires first { a < length self.old }
        requires second { b < length self.old }
        ensures { self.new ≡ merged self.old a b }
    {
        let x = self.labels[a as usize];
        let y = self.labels[b as usize];
        if x != y {
            relabel(&mut self.labels, x.max(y), x.min(y));
        }
    }

    /// The label of a number, at once.
    pub fn label(&self, a: u16) -> u16
        requires { a < length self.now }
        ensures { result ≡ slice_index self.now a }
    {
        self.labels[a as usize]
    }

    /// The labels, at once.
    pub fn into_labels(self) -> NodeList
        ensures { result ≡ self }
    {
        NodeList::from_numbers(self.labels)
    }
}

// Puts one label in the place of another. The value is written in both cases, so that the loop is
// made of wide steps.
fn relabel(labels: &mut [u16], from: u16, to: u16)
    ensures { labels.new ≡ map (λ label. if label == from then to else label) labels.old }
{
    for label in labels.iter_mut() {
        *label = if *label == from { to } else { *label };
    }
}
