//! Labels that no inner graph tells apart.
ghost use Rattle.std.specs.Prelude.{◌≡◌, ℕ, ◌+◌, ◌<◌, List, length, MatchOption, None, Some, IfOk};
ghost use Rattle.judge_graphs.specs.PartnerLabels.{AreInnersOf, AreLeastLabels};
ghost use Rattle.judge_graphs.specs.PartnerNames.{entries, label_named, IsFirstOf, IsIndexOf};

use decision_graphs::Graph;
use ilk_base::Memory;
use std::alloc::Global;
use std::collections::HashMap;

// Where each inner graph leads a label.
fn entries_of(alloc: Global, inners: &[Graph], labels: u32, label: u32) -> Result<Vec<u32>, Memory>
    requires inners { AreInnersOf labels inners.now }
    requires label { label < labels }
    ensures { IfOk result (λ v. v.items ≡ entries inners.now label) }
{
    let mut row = Vec::new(alloc);
    for inner in inners {
        row.push(inner.edge(0, label))?;
    }
    Ok(row)
}

// The label that the index names for a row.
fn find_name(index: &HashMap<Vec<u32>, u32>, row: &Vec<u32>) -> Option<u32>
    ensures { MatchOption result (label_named index.now row.now ≡ None) (λ y. label_named index.now row.now ≡ Some y) }
{
    match index.get(row) {
        Some(name) => Some(*name),
        None => None,
    }
}

// The first label with the row of this one, where the index knows the labels before; then it knows this one too.
fn name_of(index: &mut HashMap<Vec<u32>, u32>, row: Vec<u32>, label: u32) -> Result<u32, Memory>
    ensures { IfOk result (λ name. (rows : ℕ → List ℕ) → IsIndexOf rows label index.old → rows label ≡ row.items
        → (name < label + 1) × IsFirstOf rows row.items name × IsIndexOf rows (label + 1) index.new) }
{
    match find_name(index, &row) {
        Some(name) => Ok(name),
        None => {
            index.insert(row, label)?;
            Ok(label)
        }
    }
}

// For each label of an outer graph the least label that no inner graph tells apart from it. The inner graphs are
// reduced, and their first choices are the labels of the outer graph. Linear but for hashing; takes about 4 bytes for
// each label and inner graph and 100 for each label while it runs.
pub(crate) fn names_of(alloc: Global, inners: &[Graph], labels: u32) -> Result<Vec<u32>, Memory>
    requires { AreInnersOf labels inners.now }
    ensures { IfOk result (λ v. AreLeastLabels inners.now labels v.items) }
{
    let mut names = Vec::new(alloc);
    let mut index = HashMap::new(alloc);
    for label in 0..labels {
        let row = entries_of(alloc, inners, labels, label)?;
        let name = name_of(&mut index, row, label)?;
        names.push(name)?;
    }
    Ok(names)
}
