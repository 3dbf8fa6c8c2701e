//! Laws of knowledge: on alike positions, and on full knowledge.
ghost use Rattle.std.specs.Prelude.{ℕ, List, Bool};
ghost use Rattle.station_graph.specs.Diagram.{Diagram, IsStation};
ghost use Rattle.station_graph.specs.Alike.{SameFor, SameAnswers};
ghost use Rattle.central_rules.specs.Knowledge.{Known, IsReadingOf, IsFull};

/// Two vectors that have the same positions in bay c and stand alike in each other part give the same
/// answer of `breaks` for every operation of a switch of c. So of another part no more is to be known
/// than what its items couple, join, bond and supply on the nodes that it shares.
pub fn alike_positions()
    ensures { (d : Diagram) (c : ℕ) (v w : List Bool)
        → IsStation d → SameFor d c v w → SameAnswers d c v w }
{}

/// Full knowledge decides by the truth: where a bay has heard of every other bay, and every word that it
/// knows is off or on, all readings of what it knows give the same answers for its operations. So the
/// true positions, which are one of these readings, alone decide.
pub fn full_knowledge()
    ensures { (d : Diagram) (k : Known) (v w : List Bool)
        → IsStation d → IsFull d k → IsReadingOf d k v → IsReadingOf d k w → SameAnswers d k.bay v w }
{}
