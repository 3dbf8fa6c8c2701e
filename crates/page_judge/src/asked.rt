//! The questions of a page about the station that its desk holds.
ghost use Rattle.std.specs.Prelude.{◌≡◌};
ghost use Rattle.page_judge.specs.Told.{Ends};
ghost use Rattle.page_judge.specs.Desk.{IsOpen, Keeps};
ghost use Rattle.page_questions.specs.Questions.{SaysCheck, SaysState, SaysExplain, SaysWhy, SaysOrder};
ghost use Rattle.page_questions.specs.Questions.{direction_of};
ghost use Rattle.page_questions.specs.Questions.{RefusesPositions, RefusesExplain, RefusesOrder};

use crate::desk::Desk;
use crate::told::{Told, tell};
use ilk_base::Direction;
use page_questions::{check_answer, explain_answer, order_answer, state_answer, why_answer};
use std::alloc::Global;

// The direction of an operation that closes, or that opens.
fn direction_of(closes: bool) -> Direction
    ensures { result ≡ direction_of closes }
{
    match closes {
        false => Direction::ToOff,
        true => Direction::ToOn,
    }
}

/// The text of `check` by these positions.
#[unsafe(no_mangle)]
pub extern "C" fn page_check(
    alloc: Global,
    desk: &mut Desk,
    positions: &[u8],
    room: &mut [u8],
    told: &mut Told,
) -> u32
    requires open { IsOpen desk.old.kept }
    ensures kept { desk.new.kept ≡ desk.old.kept }
    ensures ends { Keeps desk.old.kept (λ d. Ends (SaysCheck d positions.now) (RefusesPositions d positions.now)
        result told.new room.new) }
{
    let kept = desk.take(alloc);
    let answer = check_answer(alloc, &kept.judge, positions);
    desk.put(kept);
    tell(&answer, room, told)
}

/// The text of `state` by these positions.
#[unsafe(no_mangle)]
pub extern "C" fn page_state(
    alloc: Global,
    desk: &mut Desk,
    positions: &[u8],
    room: &mut [u8],
    told: &mut Told,
) -> u32
    requires open { IsOpen desk.old.kept }
    ensures kept { desk.new.kept ≡ desk.old.kept }
    ensures ends { Keeps desk.old.kept (λ d. Ends (SaysState d positions.now) (RefusesPositions d positions.now)
        result told.new room.new) }
{
    let kept = desk.take(alloc);
    let answer = state_answer(alloc, kept.judge.station(), positions);
    desk.put(kept);
    tell(&answer, room, told)
}

/// The text of `explain` for closing, or for opening, the switch of this path.
#[unsafe(no_mangle)]
pub extern "C" fn page_explain(
    alloc: Global,
    desk: &mut Desk,
    positions: &[u8],
    closes: bool,
    path: &[u8],
    room: &mut [u8],
    told: &mut Told,
) -> u32
    requires open { IsOpen desk.old.kept }
    ensures kept { desk.new.kept ≡ desk.old.kept }
    ensures ends { Keeps desk.old.kept (λ d. Ends (SaysExplain d positions.now (direction_of closes) path.now)
        (RefusesExplain d positions.now path.now) result told.new room.new) }
{
    let kept = desk.take(alloc);
    let answer = explain_answer(alloc, &kept.judge, positions, direction_of(closes), path);
    desk.put(kept);
    tell(&answer, room, told)
}

/// The text of `why` for closing, or for opening, the switch of this path.
#[unsafe(no_mangle)]
pub extern "C" fn page_why(
    alloc: Global,
    desk: &mut Desk,
    positions: &[u8],
    closes: bool,
    path: &[u8],
    room: &mut [u8],
    told: &mut Told,
) -> u32
    requires open { IsOpen desk.old.kept }
    ensures kept { desk.new.kept ≡ desk.old.kept }
    ensures ends { Keeps desk.old.kept (λ d. Ends (SaysWhy d positions.now (direction_of closes) path.now)
        (RefusesExplain d positions.now path.now) result told.new room.new) }
{
    let kept = desk.take(alloc);
    let answer = why_answer(alloc, &kept.judge, positions, direction_of(closes), path);
    desk.put(kept);
    tell(&answer, room, told)
}

/// The text of `order` for these steps from these positions.
#[unsafe(no_mangle)]
pub extern "C" fn page_order(
    alloc: Global,
    desk: &mut Desk,
    positions: &[u8],
    order: &[u8],
    room: &mut [u8],
    told: &mut Told,
) -> u32
    requires open { IsOpen desk.old.kept }
    ensures kept { desk.new.kept ≡ desk.old.kept }
    ensures ends { Keeps desk.old.kept (λ d. Ends (SaysOrder d positions.now order.now)
        (RefusesOrder d positions.now order.now) result told.new room.new) }
{
    let kept = desk.take(alloc);
    let answer = order_answer(alloc, kept.judge.station(), positions, order);
    desk.put(kept);
    tell(&answer, room, told)
}
