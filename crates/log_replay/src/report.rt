//! What a replay shows.
ghost use Rattle.std.specs.Prelude.{◌≡◌, ◌≤◌, length, map, IfOk};
ghost use Rattle.log_replay.specs.Replay.{shown_at, ReportFits, report_text, is_granted, is_denied, is_finished};
ghost use Rattle.log_replay.specs.Replay.{how_many};
ghost use Rattle.log_replay.specs.declared.limits.TheConstants.{MOST_RECORDS};

use crate::limits::MOST_RECORDS;
use crate::report_lines::{push_all, push_bays, push_last};
use ilk_base::{Memory, Text};
use reservation_core::{Outcome, Which, WorldOutcome};
use station_graph::Station;
use std::alloc::Global;
use std::marker::Model;

/// What the replay of a log shows, seen as what is shown at each line, the line at which a premise is broken,
/// if one is, and how many records the log has. It is made by `replay`.
#[derive(Drop)]
pub struct Report {
    outcomes: Vec<Option<WorldOutcome>>,
    broken: Option<(u32, Which)>,
    count: u32,
}

impl Model for Report {
    ghost use Rattle.std.specs.Prelude.{◌≤◌, length, map};
    ghost use Rattle.log_replay.specs.Replay.{Replayed, shown_at};
    ghost use Rattle.log_replay.specs.declared.limits.TheConstants.{MOST_RECORDS};

    ghost Value = { Replayed };

    ghost view = { λ a. record { out = map shown_at a.outcomes.items; broken = a.broken; count = a.count } };

    ghost invariant = { λ a. length a.outcomes.items ≤ MOST_RECORDS };
}

// Whether a granted operation is shown.
fn is_granted(outcome: &Option<WorldOutcome>) -> bool
    ensures { result ≡ is_granted (shown_at outcome.now).outcome }
{
    match outcome {
        Some(WorldOutcome::Node { output, .. }) => matches!(
            output.outcome,
            Outcome::Granted { .. }
        ),
        _ => false,
    }
}

// Whether a denial is shown.
fn is_denied(outcome: &Option<WorldOutcome>) -> bool
    ensures { result ≡ is_denied (shown_at outcome.now).outcome }
{
    match outcome {
        Some(WorldOutcome::Node { output, .. }) => matches!(output.outcome, Outcome::Denied { .. }),
        _ => false,
    }
}

// Whether it is shown that an operation is finished.
fn is_finished(outcome: &Option<WorldOutcome>) -> bool
    ensures { result ≡ is_finished (shown_at outcome.now).outcome }
{
    match outcome {
        Some(WorldOutcome::Node { output, .. }) => {
            matches!(output.outcome, Outcome::Finished { .. })
        }
        _ => false,
    }
}

// How many granted operations are shown.
fn granted_count(outcomes: &[Option<WorldOutcome>]) -> u32
    requires { length outcomes.now ≤ MOST_RECORDS }
    ensures { result ≡ how_many is_granted (map shown_at outcomes.now) }
{
    let mut count = 0;
    for i in 0..outcomes.len() {
        if is_granted(&outcomes[i]) {
            count += 1;
        }
    }
    count
}

// How many denials are shown.
fn denied_count(outcomes: &[Option<WorldOutcome>]) -> u32
    requires { length outcomes.now ≤ MOST_RECORDS }
    ensures { result ≡ how_many is_denied (map shown_at outcomes.now) }
{
    let mut count = 0;
    for i in 0..outcomes.len() {
        if is_denied(&outcomes[i]) {
            count += 1;
        }
    }
    count
}

// How many finished operations are shown.
fn finished_count(outcomes: &[Option<WorldOutcome>]) -> u32
    requires { length outcomes.now ≤ MOST_RECORDS }
    ensures { result ≡ how_many is_finished (map shown_at outcomes.now) }
{
    let mut count = 0;
    for i in 0..outcomes.len() {
        if is_finished(&outcomes[i]) {
            count += 1;
        }
    }
    count
}

impl Report {
    /// The report of what came of each line, of the line at which a premise is broken and the premise, if one
    /// is, and of how many records the log has. At once; takes no memory.
    pub fn new(
        outcomes: Vec<Option<WorldOutcome>>,
        broken: Option<(u32, Which)>,
        count: u32,
    ) -> Report
        requires { length outcomes.items ≤ MOST_RECORDS }
        ensures out { result.out ≡ map shown_at outcomes.items }
        ensures broken { result.broken ≡ broken }
        ensures count { result.count ≡ count }
    {
        Report {
            outcomes,
            broken,
            count,
        }
    }

    /// The line at which a premise is broken, from 1, and the premise; none where no line breaks one. At once;
    /// takes no memory.
    pub fn premise(&self) -> Option<(u32, Which)>
        ensures { result ≡ self.now.broken }
    {
        self.broken
    }

    /// How many records the log has. At once; takes no memory.
    pub fn count(&self) -> u32
        ensures { result ≡ self.now.count }
    {
        self.count
    }

    /// How many of the outcomes that are shown are granted, denied and finished. Time: the lines. Takes no
    /// memory.
    pub fn outcomes(&self) -> (u32, u32, u32)
        ensures granted { result.0 ≡ how_many is_granted self.now.out }
        ensures denied { result.1 ≡ how_many is_denied self.now.out }
        ensures finished { result.2 ≡ how_many is_finished self.now.out }
    {
        (
            granted_count(&self.outcomes),
            denied_count(&self.outcomes),
            finished_count(&self.outcomes),
        )
    }

    /// The text of the report (docs/FORMATS.md): the bays, what is shown at each line, and `done` with the
    /// number of records, unless a premise is broken. The station is that of the replay. Time: the text, and
    /// for each denial the switches. Memory: the text.
    pub fn text(&self, alloc: Global, station: &Station) -> Result<Text, Memory>
        requires { ReportFits station.now self.now }
        ensures { IfOk result (λ t. t ≡ report_text station.now self.now) }
    {
        let mut text = Text::new(alloc);
        push_bays(&mut text, station)?;
        push_all(alloc, &mut text, station, &self.outcomes)?;
        push_last(&mut text, self.broken, self.count)?;
        Ok(text)
    }
}
