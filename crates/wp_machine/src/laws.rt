ghost use Rattle.std.specs.Prelude.{◌≡◌, ◌↔◌, ℕ, IsTrue};
ghost use Rattle.std.specs.List.{All};
ghost use Rattle.wp_model.specs.Cancelled.{GoesOutAt, IsCancelledAfter};
ghost use Rattle.wp_model.specs.History.{History, IsLegal};
ghost use Rattle.wp_model.specs.Opening.{Opening};
ghost use Rattle.wp_model.specs.State.{State};
ghost use Rattle.wp_model.specs.Step.{says_refilled, says_released, step};
ghost use Rattle.wp_model.specs.declared.command.Command.{Command};
ghost use Rattle.wp_machine.specs.Outcome.{is_cancelled_later, outcome_of, released_of, tells_holds, tells_refill};

/// A law: a step tells what a wave holds exactly with the reply `Released`, a refill exactly with the reply `Refilled`,
/// and nothing with any other.
pub fn outcomes_come_with_their_replies()
    ensures released { (opening : Opening) (number : ℕ) (state : State) (command : Command)
        → tells_holds
        (outcome_of number state command (step opening state command))
        ≡ says_released (step opening state command).reply }
    ensures refilled { (opening : Opening) (number : ℕ) (state : State) (command : Command)
        → tells_refill
        (outcome_of number state command (step opening state command))
        ≡ says_refilled (step opening state command).reply }
{}

/// A law: each wave that a legal history sends out goes out by the entry with its number, and is cancelled later
/// exactly where an entry after that one cancels it: a cancel of this wave that was done.
pub fn later_entries_cancel_waves()
    ensures out { (history : History) → IsLegal history
        → All (λ out. GoesOutAt history.entries out.number out.wave) (released_of history) }
    ensures cancelled { (history : History) → IsLegal history
        → All (λ out. IsTrue (is_cancelled_later history out)
        ↔ IsCancelledAfter history.entries out.number out.wave) (released_of history) }
{}
