ghost use Rattle.std.specs.Prelude.{◌≡◌, ◌⊎◌, ℕ, ◌<◌, ◌≤◌, ◌↔◌, IsTrue, List, Option, Some, None, length};
ghost use Rattle.std.specs.Ordering.{is_lt};
ghost use Rattle.wp_model.specs.Cancelled.{GoesOutAt, IsCancelledAfter, is_cancelled_in};
ghost use Rattle.wp_model.specs.Demand.{IsCovered, free_units, short_article, wave_demand};
ghost use Rattle.wp_model.specs.History.{History, IsLegal, state_after};
ghost use Rattle.wp_model.specs.Location.{is_before, side_before};
ghost use Rattle.wp_model.specs.Opening.{Opening, IsOpening};
ghost use Rattle.wp_model.specs.Overlap.{overlap};
ghost use Rattle.wp_model.specs.Served.{StockGoesWhereItCovers};
ghost use Rattle.wp_model.specs.Sound.{EachStateIsSound, IsSound};
ghost use Rattle.wp_model.specs.State.{State, opening_state};
ghost use Rattle.wp_model.specs.Step.{SaysDone, is_refusal, step};
ghost use Rattle.wp_model.specs.Sums.{sum_below};
ghost use Rattle.wp_model.specs.contracts.location.LocationOrd.TheImpl as location_order;
ghost use Rattle.wp_model.specs.contracts.location.SideOrd.TheImpl as side_order;
ghost use Rattle.wp_model.specs.declared.command.Command.{Command};
ghost use Rattle.wp_model.specs.declared.location.Location.{Location};
ghost use Rattle.wp_model.specs.declared.location.Side.{Side};
ghost use Rattle.wp_model.specs.declared.row.Row.{Row};

/// A law: the opening state is sound, each command keeps a sound state sound, and so every state of a history is.
pub fn states_are_sound()
    ensures opening { (opening : Opening) → IsOpening opening
        → IsSound opening (opening_state opening) }
    ensures step { (opening : Opening) (state : State) (command : Command) → IsOpening opening
        → IsSound opening state → IsSound opening
        (step opening state command).state }
    ensures history { (history : History) → IsOpening history.opening → EachStateIsSound history }
{}

/// A law: a command is answered by the reply that says it was done, or refused, and a refusal leaves the state as it
/// was.
pub fn refusals_change_nothing()
    ensures replies { (opening : Opening) (state : State) (command : Command)
        → SaysDone command (step opening state command).reply ⊎ IsTrue
        (is_refusal (step opening state command).reply) }
    ensures state { (opening : Opening) (state : State) (command : Command)
        → IsTrue (is_refusal (step opening state command).reply) →
        (step opening state command).state ≡ state }
{}

/// A law: in each state of a history a submitted wave gets stock, by its allotment or its release, exactly where free
/// stock covers it, and then each of its orders holds just what its lines want. Else it gets nothing, and the reply
/// names its first short article, with both numbers. An allotted wave is released with what it holds.
pub fn stock_goes_where_it_covers()
    ensures { (history : History) → IsOpening history.opening → StockGoesWhereItCovers history }
{}

/// A law: a wave that goes out in a legal history is cancelled after it exactly where a later entry cancels it.
pub fn waves_are_cancelled_by_later_entries()
    ensures { (history : History) (number : ℕ) (name : List ℕ) → IsLegal history
        → GoesOutAt history.entries number name
        → IsTrue (is_cancelled_in (state_after history) name) ↔ IsCancelledAfter history.entries number name }
{}

/// A law: locations are in order of aisle, slot and side, and L comes before R.
pub fn locations_are_in_order()
    ensures locations { (a b : Location) → is_lt (location_order.cmp-value.it a b) ≡ is_before a b }
    ensures sides { (a b : Side) → is_lt (side_order.cmp-value.it a b) ≡ side_before a b }
{}

/// A law: there is no short article exactly where free stock covers the orders, and it is the first that isn't covered.
pub fn short_articles_are_the_first()
    ensures covered { (opening : Opening) (rows : List Row) (orders : List (List ℕ))
        (except : Option ℕ) → IsOpening opening →
        (short_article opening rows orders except ≡ None) ↔ IsCovered opening rows orders except }
    ensures short { (opening : Opening) (rows : List Row) (orders : List (List ℕ))
        (except : Option ℕ) (article : ℕ)
        → short_article opening rows orders except ≡ Some article → (article < length opening.stock.articles)
        × (free_units rows article except < wave_demand opening orders article)
        × ((before : ℕ) → before < article → wave_demand opening orders before ≤ free_units rows before except) }
{}

/// A law of holding by overlap: where the offers cover the demands each order gets just what it wants, and no row gives
/// more than it offers.
pub fn overlaps_give_each_its_demand()
    ensures order { (demand offer : ℕ → ℕ) (orders rows order : ℕ)
        → sum_below orders demand ≤ sum_below rows offer → order < orders → sum_below rows
        (overlap demand offer order) ≡ demand order }
    ensures row { (demand offer : ℕ → ℕ) (orders row : ℕ)
        → sum_below orders (λ order. overlap demand offer order row) ≤ offer row }
{}
