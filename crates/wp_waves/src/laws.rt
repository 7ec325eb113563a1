ghost use Rattle.std.specs.Prelude.{ℕ, ◌≤◌, List};
ghost use Rattle.std.specs.List.Sorted.{IsPermutation};
ghost use Rattle.wp_model.specs.Opening.{IsOpening, Opening};
ghost use Rattle.wp_waves.specs.Turns.{served_in, turns_of};
ghost use Rattle.wp_waves.specs.Weights.{AreCoveredInTurn, all_of, wanted_together};
ghost use Rattle.wp_waves.specs.declared.open_orders.OpenOrder.{OpenOrder};

/// A law: the orders that are served want no more together than is free, of any article; and in whatever waves they go,
/// each wave is covered by what is free less what the waves before it want.
pub fn served_orders_are_covered_wave_by_wave()
    ensures together { (opening : Opening) (free : ℕ → ℕ) (listed : List OpenOrder) (article : ℕ)
        → IsOpening opening
        → wanted_together opening (served_in (turns_of opening free listed)) article ≤ free article }
    ensures in_turn { (opening : Opening) (free : ℕ → ℕ) (listed : List OpenOrder)
        (waves : List (List OpenOrder)) → IsOpening opening
        → IsPermutation (served_in (turns_of opening free listed)) (all_of waves)
        → AreCoveredInTurn opening free waves }
{}
