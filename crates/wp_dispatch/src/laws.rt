ghost use Rattle.std.specs.Prelude.{◌≡◌, ◌≤◌, ◌++◌, ℕ, IsTrue, List, codes, length};
ghost use Rattle.std.specs.List.{All};
ghost use Rattle.wp_dispatch.specs.DeskText.{IsReadAsPrinted, MayBePrinted, commands_out, desk_text};
ghost use Rattle.wp_model.specs.Journal.{line};
ghost use Rattle.wp_model.specs.Limits.{most_submissions, most_wave_orders};
ghost use Rattle.wp_model.specs.Name.{is_name};
ghost use Rattle.wp_model.specs.Opening.{Opening};
ghost use Rattle.wp_model.specs.State.{State};
ghost use Rattle.wp_model.specs.Tables.{IsReadOpening};
ghost use Rattle.wp_outgoing.specs.Lines.{desks_section};
ghost use Rattle.wp_outgoing.specs.Sending.{orders_of, sendings_of};
ghost use Rattle.wp_outgoing.specs.WavesOut.{AreOut};
ghost use Rattle.wp_outgoing.specs.declared.lines.WaveOut.{WaveOut};
ghost use Rattle.wp_tables.specs.DeskFile.{is_desk};
ghost use Rattle.wp_waves.specs.OpenOrders.{AreOpenOrders};
ghost use Rattle.wp_waves.specs.Turns.{AreTurns, served_in};
ghost use Rattle.wp_waves.specs.Waves.{AreWavesOf};
ghost use Rattle.wp_waves.specs.declared.open_orders.OpenOrder.{OpenOrder};
ghost use Rattle.wp_waves.specs.declared.turns.OrderTurn.{OrderTurn};

/// A law: the desk file that stands in the printed section of waves is read again as just the commands that send them
/// out. The desk submits and releases the waves one after the other, and the desks before it ask for nothing; where
/// there is no wave there is one desk, and it asks for nothing. Where waves go out under names, those commands are the
/// ones that send these waves out under these names.
pub fn printed_desk_files_are_read()
    ensures section { (desk : ℕ) (waves : List WaveOut) → desks_section desk waves
        ≡ line (codes "desks") ++ desk_text desk waves ++ line (codes "end desks") }
    ensures read { (desk : ℕ) (waves : List WaveOut) → IsTrue (is_desk desk)
        → length waves ≤ most_submissions → All MayBePrinted waves → IsReadAsPrinted desk waves }
    ensures sends { (names : List (List ℕ)) (waves : List (List OpenOrder)) (starts : List ℕ)
        (out : List WaveOut) → AreOut names waves starts out
        → commands_out out ≡ sendings_of names (orders_of waves) }
{}

/// A law: of right waves of the orders that are served in a state, the first ones may be printed under any names.
pub fn waves_of_served_orders_may_be_printed()
    ensures { (opening : Opening) (state : State) (listed : List OpenOrder) (turns : List OrderTurn)
        (most : ℕ) (waves later : List (List OpenOrder)) (names : List (List ℕ)) (starts : List ℕ)
        (out : List WaveOut)
        → IsReadOpening opening → AreOpenOrders opening.orders listed
        → AreTurns opening state listed turns → most ≤ most_wave_orders
        → AreWavesOf most (served_in turns) (waves ++ later)
        → AreOut names waves starts out → All (λ name. IsTrue (is_name name)) names
        → All MayBePrinted out }
{}
