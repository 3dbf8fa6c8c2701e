//! What a judge is.
ghost use Rattle.std.specs.Prelude.{◌≡◌, ◌≢◌, ◌<◌, ◌↔◌, ℕ, Bool, List, Option, None, length, IfOk, IsTrue, IsFalse};
ghost use Rattle.ilk_base.specs.declared.words.Dbpos.{Dbpos as Word};
ghost use Rattle.ilk_base.specs.declared.words.Op.{Op as Operation};
ghost use Rattle.station_graph.specs.Diagram.{part_count, IsStation};
ghost use Rattle.station_graph.specs.Connection.{a_switch};
ghost use Rattle.station_graph.specs.Sharing.{OfPart};
ghost use Rattle.station_graph.specs.CentralRules.{Breaks, IsOperation};
ghost use Rattle.station_graph.specs.Alike.{SameAnswers};
ghost use Rattle.central_rules.specs.Readings.{IsReading, Decides};
ghost use Rattle.central_rules.specs.Knowledge.{Known, IsReadingOf, Holds};
ghost use Rattle.central_rules.specs.Meaning.{Meaning, Laws, Summarises, HeardFit, CannotExclude, AreMade, bay_of};
ghost use Rattle.central_rules.specs.Meaning.{IsBay};
ghost use Rattle.double_points.specs.Words.{AreWords};

use crate::verdict::Verdict;
use double_points::Readings;
use ilk_base::{BayId, HeardList, Memory, Op, Summary};
use std::alloc::Global;

/// Who decides the operations of one station, from what a bay knows of the other bays. What a bay tells
/// another of its positions is a `Summary`, in a form of the judge's own; the ghost member `meaning` says
/// which positions a summary allows, and the law `lawful` what holds of that meaning in each judge. Every
/// id, every list of words and every list of what was heard is of the judge's station. Time and memory
/// are told by each judge.
pub trait Judge {
    /// The station, which bays tell which nothing, which summaries fit, and what they allow.
    ghost meaning: { Self → Meaning };

    /// Whether the bay tells the other, another than itself, of its positions. Where it does not, it is irrelevant to
    /// the other;
    /// so it tells wherever it is a partner. Takes no memory.
    fn tells(&self, bay: BayId, to: BayId) -> bool
        requires bay { IsBay (meaning self.now).diagram bay.0 }
        requires to { IsBay (meaning self.now).diagram to.0 }
        requires other { bay.0 ≢ to.0 }
        ensures tells { IsTrue result → ¬ (meaning self.now).Silent bay.0 to.0 }
        ensures silent { IsFalse result → (meaning self.now).Silent bay.0 to.0 };

    /// What the bay tells the other where its words are these. Of the words those of the bay are looked at.
    fn summarise(
        &self,
        alloc: Global,
        bay: BayId,
        to: BayId,
        readings: &Readings,
    ) -> Result<Summary, Memory>
        requires bay { IsBay (meaning self.now).diagram bay.0 }
        requires to { IsBay (meaning self.now).diagram to.0 }
        requires other { bay.0 ≢ to.0 }
        requires all { AreWords (meaning self.now).diagram readings.now }
        ensures { IfOk result (λ s. Summarises (meaning self.now) bay.0 to.0 readings.now s) };

    /// Whether a summary from the bay to the other has the form of the judge. Takes no memory.
    fn fits(&self, bay: BayId, to: BayId, summary: &Summary) -> bool
        requires bay { IsBay (meaning self.now).diagram bay.0 }
        requires to { IsBay (meaning self.now).diagram to.0 }
        requires other { bay.0 ≢ to.0 }
        ensures { IsTrue result ↔ (meaning self.now).Fits bay.0 to.0 summary.now };

    /// The verdict by what the bay of the operation knows: by its own words, and by what it has heard of
    /// each other bay. Of `own` the words of that bay are looked at, and of `heard` what was heard of
    /// other bays.
    fn judge(
        &self,
        alloc: Global,
        op: Op,
        own: &Readings,
        heard: &HeardList,
    ) -> Result<Verdict, Memory>
        requires op { IsOperation (meaning self.now).diagram op }
        requires own { AreWords (meaning self.now).diagram own.now }
        requires heard { length heard.now ≡ part_count (meaning self.now).diagram }
        requires fits { HeardFit (meaning self.now) (bay_of (meaning self.now).diagram op.switch.0) heard.now }
        ensures { IfOk result (Decides (meaning self.now).diagram
            (CannotExclude (meaning self.now) (bay_of (meaning self.now).diagram op.switch.0) own.now heard.now) op) };

    /// The verdict where the word of every switch is known.
    fn judge_all(&self, alloc: Global, op: Op, readings: &Readings) -> Result<Verdict, Memory>
        requires op { IsOperation (meaning self.now).diagram op }
        requires all { AreWords (meaning self.now).diagram readings.now }
        ensures { IfOk result (Decides (meaning self.now).diagram (IsReading readings.now) op) };

    /// The diagram is that of a station. This is a law: the call does nothing.
    fn diagram_is_station(&self)
        ensures { IsStation (meaning self.now).diagram };

    /// What a summary allows depends on its own bay alone; a bay that tells another nothing is irrelevant
    /// to it, and exactly the empty summary fits from it, which allows everything.
    ghost lawful: { (j : Self) → Laws (meaning j) };
}

/// Where the summaries heard are those of the words of what a bay knows, a vector that its own words and
/// the summaries allow is a reading of what it knows.
pub fn known_by_words<J: Judge>(judge: &J)
    ensures { (k : Known) (heard : List (Option (List ℕ))) (v : List Bool)
        → AreMade (J.meaning judge.now) k heard → CannotExclude (J.meaning judge.now) k.bay k.own heard v
        → IsReadingOf (J.meaning judge.now).diagram k v }
{}

/// Where the summaries heard are those of the words of what a bay knows, each reading of what it knows has
/// a vector that its own words and the summaries allow, with the same answers for its operations. The
/// reading itself need not be allowed: it lets a bay that was heard stand merely alike to a position of
/// that bay's words, or, where that bay is irrelevant, in any position.
pub fn words_by_known<J: Judge>(judge: &J)
    ensures { (k : Known) (heard : List (Option (List ℕ))) (v : List Bool)
        → AreMade (J.meaning judge.now) k heard → IsReadingOf (J.meaning judge.now).diagram k v
        → (w : List Bool) × CannotExclude (J.meaning judge.now) k.bay k.own heard w
        × SameAnswers (J.meaning judge.now).diagram k.bay v w }
{
    judge.diagram_is_station();
}

/// Judging by summaries is judging by words: where the summaries heard are those of the words of what a
/// bay knows, an operation of the bay holds by what it knows exactly where it breaks no rule in any vector
/// that its own words and the summaries allow.
pub fn holds_by_summaries<J: Judge>(judge: &J)
    ensures { (op : Operation) (k : Known) (heard : List (Option (List ℕ)))
        → AreMade (J.meaning judge.now) k heard → OfPart (J.meaning judge.now).diagram k.bay (a_switch op.switch.0)
        → Holds (J.meaning judge.now).diagram op k ↔
        ((v : List Bool) → CannotExclude (J.meaning judge.now) k.bay k.own heard v →
        Breaks (J.meaning judge.now).diagram v op None) }
{
    judge.diagram_is_station();
}
