ghost use Rattle.wp_words.specs.Limits.{AreUnits};

/// What words ask for.
#[derive(Drop)]
pub enum Job {
    /// Plans the waves of a day.
    Plan(PlanWords),
    /// Checks a certificate over the layout that it is for.
    Check(CheckWords),
    /// Holds a journal against the files that it came from.
    Audit(AuditWords),
    /// Plans the waves of a day that is made.
    Make(MakeWords),
}

/// The names of the files of a day, and the numbers that its plans go by.
#[derive(Drop)]
pub struct PlanWords {
    pub layout: String,
    pub stock: String,
    pub orders: String,
    pub desks: String,
    /// The most orders that a batch may have, 1 to 8.
    pub capacity: u32,
    /// The most units that a cart holds, 1 to 40,000,000; none where carts have no such limit.
    pub units: Option<u32>,
    /// The work that the search for better batches may do, 0 to 1,000,000,000,000,000,000.
    pub budget: u64,
    /// For how many nodes each wave's search may work, 1 to 1,000,000,000; none where the budget says what it may do.
    pub nodes: Option<u64>,
    /// The most threads that may search at once, 1 to 16.
    pub workers: u32,
    /// Whether the sheets tell what three usual rules would walk: 1 where they do, and 0 where they don't.
    pub rules: u32,
    /// To how many pickers the batches of the day are dealt, 1 to 100; 0 where they aren't dealt.
    pub pickers: u32,
    /// Whether the sheets tell a bracket of the linear bound: 1 where they do, and 0 where they don't.
    pub root: u32,
    /// Whether the day goes on from the store and its entries are added to it: 1 where they are, and 0 where no call is
    /// made on the disk.
    pub store: u32,
}

/// The names of a certificate, and of the layout that it is for.
#[derive(Drop)]
pub struct CheckWords {
    pub layout: String,
    pub certificate: String,
}

/// The names of a journal, and of the files that it came from, and the number that its batches went by.
#[derive(Drop)]
pub struct AuditWords {
    pub layout: String,
    pub stock: String,
    pub orders: String,
    pub journal: String,
    /// The most units that a cart holds, 1 to 40,000,000; none where carts have no such limit.
    pub units: Option<u32>,
    pub ghost cart: { AreUnits units },
}

/// The numbers from which a day is made and planned.
#[derive(Drop)]
pub struct MakeWords {
    /// What the day is drawn from.
    pub number: u64,
    /// How many aisles the warehouse has, 1 to 64.
    pub aisles: u32,
    /// How many orders there are, 1 to 10,000.
    pub orders: u32,
    /// How many desks take turns, 1 to 8.
    pub desks: u32,
    /// How many orders a wave has, 1 to 64; the waves are at most 500.
    pub wave: u32,
    /// The most orders that a batch may have, 1 to 8.
    pub capacity: u32,
    /// The work that the search for better batches may do, 0 to 1,000,000,000,000,000,000.
    pub budget: u64,
    /// For how many nodes each wave's search may work, 1 to 1,000,000,000; none where the budget says what it may do.
    pub nodes: Option<u64>,
    /// The most threads that may search at once, 1 to 16.
    pub workers: u32,
}
