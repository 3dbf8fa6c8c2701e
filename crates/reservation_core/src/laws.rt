//! What follows for every world. These calls do nothing and cost nothing: a caller cites their contracts.
ghost use Rattle.std.specs.Prelude.{◌≡◌, Bool, List, None};
ghost use Rattle.ilk_base.specs.declared.words.BayId.{BayId as Bay};
ghost use Rattle.reservation_core.specs.Scene.{Scene, node};
ghost use Rattle.reservation_core.specs.declared.values.WorldEvent.{WorldEvent as Event};
ghost use Rattle.reservation_core.specs.declared.values.WorldOutcome.{WorldOutcome as Shown};
ghost use Rattle.reservation_core.specs.declared.values.WorldOutcome.TheVariants.{Premise};
ghost use Rattle.reservation_core.specs.declared.values.Which.{Which as Broken};
ghost use Rattle.reservation_core.specs.RoundFacts.{RoundFacts};
ghost use Rattle.reservation_core.specs.Facts.{Facts, Obeys, AnswersAllow, Words, Grants, IsSoundTruth};
ghost use Rattle.reservation_core.specs.Start.{IsStart};
ghost use Rattle.reservation_core.specs.Happens.{Happens, InRange};
ghost use Rattle.reservation_core.specs.Unlocking.{IsLeftLocked, unlocking, HappenInTurn};
ghost use Rattle.reservation_core.specs.World.{World as Whole, IsNewWorld, WorldFacts, WorldRounds, AreWordsKept};

use central_rules::Judge;

/// All facts hold of a world to which nothing has happened.
pub fn facts_hold_at_the_start<J: Judge>(judge: &J)
    ensures scene { (start : List Bool) (w : Scene) → let m = J.meaning judge.now in
        IsStart m.diagram start w → Facts m w }
    ensures world { (start : List Bool) (w : Whole) → let m = J.meaning judge.now in
        IsNewWorld m.diagram start w → WorldFacts m w }
    ensures rounds { (w : Whole) → WorldFacts (J.meaning judge.now) w → WorldRounds (J.meaning judge.now) w }
{}

/// Whatever happens keeps the round half of the facts: what is said of rounds, locks, frames and drives.
pub fn round_facts_are_kept<J: Judge>(judge: &J)
    ensures { (old new : Scene) (event : Event) (outcome : Shown) → let m = J.meaning judge.now in
        RoundFacts m old → InRange m.diagram event → Happens m old event new outcome → RoundFacts m new }
{
    judge.diagram_is_station();
}

/// Whatever happens keeps all facts: so they hold of every world that is reached from a start.
pub fn facts_are_kept<J: Judge>(judge: &J)
    ensures { (old new : Scene) (event : Event) (outcome : Shown) → let m = J.meaning judge.now in
        Facts m old → InRange m.diagram event → Happens m old event new outcome → Facts m new }
{
    judge.diagram_is_station();
}

/// Where the facts hold, each granted operation breaks no rule in any vector that resolves the true positions,
/// whatever is lost, repeated, reordered or restarted. An Answer whose round is under way comes of a bay that
/// is locked for it and allows what is true there; words that are off or on are true, unless an operation of
/// the switch is granted; and each granted operation is backed by Answers.
pub fn granted_operations_obey<J: Judge>(judge: &J)
    ensures obeys { (w : Scene) → Facts (J.meaning judge.now) w → Obeys (J.meaning judge.now) w }
    ensures answers { (w : Scene) → Facts (J.meaning judge.now) w → AnswersAllow (J.meaning judge.now) w }
    ensures words { (w : Scene) → Facts (J.meaning judge.now) w → Words (J.meaning judge.now) w }
    ensures grants { (w : Scene) → Facts (J.meaning judge.now) w → Grants (J.meaning judge.now) w }
{}

/// Beside each Answer the words are kept of which its summary is made, and while its round is under way they are
/// true of the bay that sent it: those that are off or on are the true positions of its switches.
pub fn kept_words_are_true<J: Judge>(judge: &J)
    ensures { (w : Whole) → WorldFacts (J.meaning judge.now) w → AreWordsKept (J.meaning judge.now) w }
{}

/// Whatever happens keeps soundness: where in no vector that resolves the true positions a node is both
/// energisable and earthable, it stays so.
pub fn soundness_of_truth_is_kept<J: Judge>(judge: &J)
    ensures { (old new : Scene) (event : Event) (outcome : Shown) → let m = J.meaning judge.now in
        Facts m old → InRange m.diagram event → Happens m old event new outcome
        → IsSoundTruth m.diagram old.truth → IsSoundTruth m.diagram new.truth }
{}

/// An event that breaks a premise changes nothing.
pub fn broken_premises_change_nothing<J: Judge>(judge: &J)
    ensures { (old new : Scene) (event : Event) (which : Broken) → let m = J.meaning judge.now in
        RoundFacts m old → InRange m.diagram event → Happens m old event new (Premise which) → new ≡ old }
{
    judge.diagram_is_station();
}

/// A lock does not stay where its round is over: from every scene that can be reached, a tick in the locked bay and
/// the deliveries of the two messages that are then sent, its Query and the Over of the holder, free it, whatever
/// came before; and these three events can happen. Nothing is said of when they do.
pub fn left_locks_are_freed<J: Judge>(judge: &J)
    ensures frees { (w new : Scene) (b : Bay) → let m = J.meaning judge.now in
        RoundFacts m w → IsLeftLocked m.diagram w b.0 → HappenInTurn m w (unlocking w b) new
        → (node m.diagram new b.0).lock ≡ None }
    ensures can { (w : Scene) (b : Bay) → let m = J.meaning judge.now in
        RoundFacts m w → IsLeftLocked m.diagram w b.0 → (new : Scene) × HappenInTurn m w (unlocking w b) new }
{
    judge.diagram_is_station();
}
