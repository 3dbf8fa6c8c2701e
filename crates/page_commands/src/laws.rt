//! What the answers to the questions of a page are to the commands. This call does nothing and costs nothing: a caller
//! cites its contract.
ghost use Rattle.std.specs.Prelude.{List, ℕ};
ghost use Rattle.ilk_base.specs.declared.words.Direction.{Direction as Either};
ghost use Rattle.page_questions.specs.Questions.{SaysCheck, SaysState, SaysExplain, SaysWhy, SaysOrder};
ghost use Rattle.page_questions.specs.Questions.{RefusesPositions, RefusesExplain, RefusesOrder};
ghost use Rattle.interlock_cli.specs.Commands.{Check, State, Explain, Why, Order};
ghost use Rattle.page_commands.specs.Answering.{Held, Holds, IsAskedBy, IsRefusedAlike};

/// A command whose files hold what a question is asked of writes exactly what the question says, and refuses exactly what
/// it refuses, the drawing too: so the clauses of the page and those of the program say the same.
pub fn answers_are_the_commands()
    ensures check { (held : Held) (station positions drawing given : List ℕ) → Holds held station drawing →
        Holds held positions given → IsAskedBy held (Check station positions) drawing (λ d. SaysCheck d given)
        (λ d. RefusesPositions d given) }
    ensures state { (held : Held) (station positions drawing given : List ℕ) → Holds held station drawing →
        Holds held positions given → IsAskedBy held (State station positions) drawing (λ d. SaysState d given)
        (λ d. RefusesPositions d given) }
    ensures explain { (held : Held) (station positions drawing given : List ℕ) (direction : Either) (path : List ℕ) →
        Holds held station drawing → Holds held positions given →
        IsAskedBy held (Explain station positions direction path) drawing
        (λ d. SaysExplain d given direction path) (λ d. RefusesExplain d given path) }
    ensures why { (held : Held) (station positions drawing given : List ℕ) (direction : Either) (path : List ℕ) →
        Holds held station drawing → Holds held positions given →
        IsAskedBy held (Why station positions direction path) drawing
        (λ d. SaysWhy d given direction path) (λ d. RefusesExplain d given path) }
    ensures order { (held : Held) (station positions order drawing given steps : List ℕ) →
        Holds held station drawing → Holds held positions given → Holds held order steps →
        IsAskedBy held (Order station positions order) drawing (λ d. SaysOrder d given steps)
        (λ d. RefusesOrder d given steps) }
    ensures drawing { (held : Held) (station drawing : List ℕ) → Holds held station drawing →
        IsRefusedAlike held station drawing }
{}
