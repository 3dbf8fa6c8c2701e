//! The words that are kept beside the Answers.
ghost use Rattle.std.specs.Prelude.{◌≡◌, ◌≤◌, ◌+◌, ◌++◌, ◌<◌, length, map, IfOk};
ghost use Rattle.std.specs.Vec.{vec_len, vec_capacity};
ghost use Rattle.reservation_core.specs.RoundFacts.{RoundFacts};
ghost use Rattle.reservation_core.specs.Beside.{AnswersAlone, IsCopied};
ghost use Rattle.reservation_core.specs.World.{kept_beside};

use crate::scene::Scene;
use crate::values::WorldEvent;
use bay_frames::{Body, Frame};
use bay_node::Node;
use central_rules::Judge;
use double_points::Readings;
use ilk_base::{Memory, SwitchId};
use station_graph::Station;
use std::alloc::Global;

// A copy of the words of a node.
fn words_of(alloc: Global, station: &Station, node: &Node) -> Result<Readings, Memory>
    requires { length node.now.words ≡ length station.now.switches }
    ensures { IfOk result (λ r. r ≡ node.now.words) }
{
    let mut words = Readings::lost(alloc, station)?;
    for i in 0..station.switch_count() {
        words.sense(SwitchId(i), node.word(SwitchId(i)));
    }
    Ok(words)
}

impl Scene {
    // The words that are to be kept beside an Answer, if one may come of the event: those of the bay that a
    // Reserve reaches.
    pub(crate) fn words_to_keep<J: Judge>(
        &self,
        alloc: Global,
        station: &Station,
        event: WorldEvent,
        _judge: &J,
    ) -> Result<Option<Readings>, Memory>
        requires same { (J.meaning _judge.now).diagram ≡ station.now }
        requires facts { RoundFacts (J.meaning _judge.now) self.now }
        ensures { IfOk result (IsCopied station.now self.now event) }
    {
        let WorldEvent::Deliver { message } = event else {
            return Ok(None);
        };
        let Some(frame) = self.message(message) else {
            return Ok(None);
        };
        if !matches!(frame.body, Body::Reserve) {
            return Ok(None);
        }
        match &self.nodes[usize::from(frame.to.0)] {
            Some(node) => Ok(Some(words_of(alloc, station, node)?)),
            None => unreachable!(),
        }
    }
}

// What is kept beside a frame: the copy, where it is an Answer.
fn note_for(frame: &Frame, copy: &mut Option<Readings>) -> Option<Readings>
    ensures { result ≡ kept_beside copy.old frame.now.body }
{
    match frame.body {
        Body::Answer(_) => copy.take(),
        Body::Reserve | Body::Busy { .. } | Body::Query | Body::Over => None,
    }
}

// Keeps the copy beside the Answer that was sent, and nothing beside other frames. There is room, and an Answer
// is sent alone.
pub(crate) fn keep(beside: &mut Vec<Option<Readings>>, sent: &[Frame], copy: Option<Readings>)
    requires room { vec_len beside.old + length sent.now ≤ vec_capacity beside.old }
    requires alone { AnswersAlone sent.now }
    ensures { beside.new.items ≡ beside.old.items ++ map (λ f. kept_beside copy f.body) sent.now }
{
    let mut copy = copy;
    for frame in sent {
        beside.push_reserved(note_for(frame, &mut copy));
    }
}
