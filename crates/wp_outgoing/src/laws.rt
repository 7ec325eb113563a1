ghost use Rattle.std.specs.Prelude.{◌≡◌, ◌≤◌, ◌++◌, ℕ, List, map};
ghost use Rattle.std.specs.List.{All};
ghost use Rattle.wp_model.specs.Limits.{most_wave_orders};
ghost use Rattle.wp_model.specs.Opening.{IsOpening, Opening};
ghost use Rattle.wp_model.specs.State.{State};
ghost use Rattle.wp_outgoing.specs.Names.{AreNamesOf, HasShortGroup, name_of};
ghost use Rattle.wp_outgoing.specs.Sending.{AreDone, orders_of, sendings_of};
ghost use Rattle.wp_waves.specs.OpenOrders.{AreOpenOrders};
ghost use Rattle.wp_waves.specs.Turns.{AreTurns, served_in};
ghost use Rattle.wp_waves.specs.Waves.{AreWavesOf};
ghost use Rattle.wp_waves.specs.declared.open_orders.OpenOrder.{OpenOrder};
ghost use Rattle.wp_waves.specs.declared.turns.OrderTurn.{OrderTurn};

/// A law: of right waves of the orders that are served in a state, the first ones go out under their names: each of
/// their commands, stepped in order from that state on, is answered as submitted or as released.
pub fn waves_of_served_orders_go_out()
    ensures { (opening : Opening) (state : State) (listed : List OpenOrder) (turns : List OrderTurn)
        (most : ℕ) (waves later : List (List OpenOrder)) (names : List (List ℕ))
        → IsOpening opening → AreOpenOrders opening.orders listed
        → AreTurns opening state listed turns → most ≤ most_wave_orders
        → AreWavesOf most (served_in turns) (waves ++ later)
        → AreNamesOf (map name_of state.waves) waves names
        → AreDone opening state (sendings_of names (orders_of waves)) }
{}

/// A law: of right waves of the orders that are served in a state, the first ones may be named: each has an order, and
/// the name of its group isn't too long.
pub fn waves_of_served_orders_may_be_named()
    ensures { (opening : Opening) (state : State) (listed : List OpenOrder) (turns : List OrderTurn)
        (most : ℕ) (waves later : List (List OpenOrder)) → AreOpenOrders opening.orders listed
        → AreTurns opening state listed turns
        → AreWavesOf most (served_in turns) (waves ++ later) → All HasShortGroup waves }
{}
