//! A law of equation texts.
ghost use Rattle.std.specs.Prelude.{Bool, List, Option};
ghost use Rattle.ilk_base.specs.declared.words.Op.{Op};
ghost use Rattle.ilk_base.specs.declared.words.Rule.{Rule};
ghost use Rattle.station_graph.specs.Diagram.{Diagram};
ghost use Rattle.station_graph.specs.Alike.{IsVector};
ghost use Rattle.station_graph.specs.CentralRules.{IsOperation, Breaks};
ghost use Rattle.station_equations.specs.EquationLines.{EquationLines};
ghost use Rattle.station_equations.specs.EquationForm.{AreEquations};
ghost use Rattle.station_equations.specs.EquationText.{TextMeans, lines_of, text_of};
ghost use Rattle.station_equations.specs.Compiling.{AreExact};

/// The text of lines that are a station's and exact, as those that `compile_equations` makes, means for each
/// operation and vector the answer that the rules give. It does nothing and costs nothing: a caller cites its
/// contract.
pub fn text_means_the_answer()
    ensures { (d : Diagram) (e : EquationLines) (op : Op) (v : List Bool) (answer : Option Rule) → AreEquations d e →
        AreExact d e
        → IsOperation d op → IsVector d v → Breaks d v op answer → TextMeans d (text_of (lines_of d e)) op v answer }
{}
