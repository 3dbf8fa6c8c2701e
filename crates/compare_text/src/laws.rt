//! A law on the texts, a call that does nothing.
ghost use Rattle.station_graph.specs.Diagram.{Diagram, IsStation};
ghost use Rattle.compare_text.specs.declared.text.CompareReport.{CompareReport as Report};
ghost use Rattle.compare_text.specs.CompareText.{IsCompareReport};
ghost use Rattle.compare_text.specs.Mirror.{AreTurnedRound, AreBaysTurnedRound};

/// Whatever positions the texts show: that of `compare NEW OLD` is the mirror of that of `compare OLD NEW`. An operation that
/// both have is called the same, kept or changed in both; by each rule it is stricter in the one exactly where it is looser
/// in the other, and the position shown is isolated in both or in neither; what is new in the one is gone in the other; and
/// a bay with a switch of both has one word. The lines stand in the order of the station that is called the new one, and the
/// positions that are shown may be others.
pub fn texts_turned_round()
    ensures lines { (o n : Diagram) (one other : Report) → IsStation o → IsStation n → (x : IsCompareReport o n one)
        → (y : IsCompareReport n o other) → AreTurnedRound o n x.found y.found }
    ensures bays { (o n : Diagram) (one other : Report) → IsStation o → IsStation n → (x : IsCompareReport o n one)
        → (y : IsCompareReport n o other) → AreBaysTurnedRound o n x.text.bays y.text.bays }
{}
