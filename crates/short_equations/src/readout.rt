//! What is read off the edges that are left.
ghost use Rattle.std.specs.Prelude.{◌≡◌, ◌<◌, length, IfOk, OnOk};
ghost use Rattle.interlock_terms.specs.Terms.{Grew};
ghost use Rattle.short_equations.specs.Edges.{AreEdges, MeansWay, EitherTerm};

use crate::edge::Edge;
use crate::elimination::is_between;
use ilk_base::{Memory, NodeId};
use interlock_terms::Terms;

// A term for one of two, of which the first may be missing.
fn with_term(terms: &mut Terms, found: Option<usize>, term: usize) -> Result<usize, Memory>
    ensures grew { OnOk result (Grew terms.old terms.new) }
    ensures means { IfOk result (EitherTerm terms.new found term) }
{
    match found {
        Some(first) => terms.either(first, term),
        None => Ok(term),
    }
}

/// The term under which the edges lead in one step from a node to a greater node or mark; none where they never do.
pub(crate) fn term_between(
    terms: &mut Terms,
    edges: &[Edge],
    first: NodeId,
    second: NodeId,
) -> Result<Option<usize>, Memory>
    requires edges { AreEdges edges.now }
    requires rises { first.0 < second.0 }
    ensures grew { OnOk result (Grew terms.old terms.new) }
    ensures means { IfOk result
        (MeansWay terms.new edges.now (length edges.now) first.0 second.0) }
{
    let mut found = None;
    for i in 0..edges.len() {
        let edge = edges[i];
        if is_between(edge, first, second) {
            let term = with_term(terms, found, edge.term)?;
            found = Some(term);
        }
    }
    Ok(found)
}
