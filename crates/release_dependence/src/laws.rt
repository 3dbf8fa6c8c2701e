//! Laws on what a release depends on, each a call that does nothing.
ghost use Rattle.std.specs.Prelude.{Bool, List, ℕ, Option};
ghost use Rattle.ilk_base.specs.declared.words.Rule.{Rule};
ghost use Rattle.ilk_base.specs.declared.words.Kind.TheVariants.{Disconnector};
ghost use Rattle.ilk_base.specs.declared.words.Op.{Op};
ghost use Rattle.station_graph.specs.Alike.{IsVector};
ghost use Rattle.station_graph.specs.CentralRules.{Breaks};
ghost use Rattle.station_graph.specs.Diagram.{Diagram};
ghost use Rattle.station_changes.specs.Covers.{Moves};
ghost use Rattle.release_dependence.specs.Depends.{DependsOn, DifferAt, LoadTurns, TurnsAtEnd, Turns};
ghost use Rattle.release_dependence.specs.Exchange.{Exchange, IsExchanged, IsExchangedOp};

/// The release of a disconnector's operation depends on every switch on which the third rule depends, whatever the first
/// two rules give: with every earthing switch open they give none.
pub fn load_alone_suffices()
    ensures { (d : Diagram) (op : Op) (s : ℕ) (v w : List Bool) → Moves Disconnector d op → DifferAt d s v w
        → LoadTurns d op v w → DependsOn d op s }
{}

/// The release of a disconnector's operation depends on no switch on which the third rule does not depend, and on which
/// the second does not depend with all breakers open nor with all of them closed. So it is enough to follow the third rule
/// alone, and both together with the breakers held.
pub fn two_views_suffice()
    ensures { (d : Diagram) (op : Op) (s : ℕ) → Moves Disconnector d op
        → ((v w : List Bool) → DifferAt d s v w → ¬ LoadTurns d op v w)
        → ((c : Bool) → ¬ TurnsAtEnd d op s c) → ¬ DependsOn d op s }
{}

/// Where two bays can be exchanged, an operation has in each vector the answer that the exchanged operation has in the
/// exchanged vector. So two vectors that differ in one switch alone and turn the release of the operation give, exchanged,
/// two that differ in the exchanged switch alone and turn that of the exchanged operation: the tests of one bay are those
/// of every bay that is like it, and one of several like bays stands for them all.
pub fn exchange_keeps_answers()
    ensures answers { (d : Diagram) (h : Exchange d) (op other : Op) (v w : List Bool) (answer : Option Rule)
        → IsExchangedOp h.switch_to op other → IsExchanged h.switch_to v w → Breaks d v op answer
        → Breaks d w other answer }
    ensures turns { (d : Diagram) (h : Exchange d) (op other : Op) (rule : Rule) (v w x y : List Bool)
        → IsExchangedOp h.switch_to op other → IsExchanged h.switch_to v x → IsExchanged h.switch_to w y
        → Turns d op rule v w → Turns d other rule x y }
    ensures differ { (d : Diagram) (h : Exchange d) (s : ℕ) (v w x y : List Bool) → IsVector d x → IsVector d y
        → IsExchanged h.switch_to v x → IsExchanged h.switch_to w y → DifferAt d s v w
        → DifferAt d (h.switch_to s) x y }
{}
