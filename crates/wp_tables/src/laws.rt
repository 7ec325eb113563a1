ghost use Rattle.std.specs.Prelude.{◌≡◌, ℕ, List, [], Err};
ghost use Rattle.std.specs.List.{All};
ghost use Rattle.wp_model.specs.TableLines.{empty_stock};
ghost use Rattle.wp_model.specs.Warehouse.{Layout};
ghost use Rattle.wp_tables.specs.DeskFile.{script_after};
ghost use Rattle.wp_tables.specs.OrderFile.{orders_after};
ghost use Rattle.wp_tables.specs.Reading.{IsFirstFault, made_by};
ghost use Rattle.wp_tables.specs.Records.{IsAmong, Kept, kept_in, records_in};
ghost use Rattle.wp_tables.specs.StockFile.{stock_after};
ghost use Rattle.wp_tables.specs.declared.fault.RowFault.{RowFault};

/// A law of what tables say: the records that are kept have their places in the file as numbers, and the fault of a
/// table's records is that of the first that fails after those before it.
pub fn first_faults_are_told()
    ensures numbers { (text : List ℕ) → All (IsAmong (records_in text)) (kept_in text) }
    ensures stock { (layout : Layout) (records : List Kept) (fault : RowFault)
        → made_by (stock_after layout) empty_stock records ≡ Err fault → IsFirstFault
        (stock_after layout) empty_stock records fault }
    ensures orders { (articles : List (List ℕ)) (records : List Kept) (fault : RowFault)
        → made_by (orders_after articles) [] records ≡ Err fault
        → IsFirstFault (orders_after articles) [] records fault }
    ensures desks { (records : List Kept) (fault : RowFault)
        → made_by script_after [] records ≡ Err fault → IsFirstFault script_after [] records fault }
{}
