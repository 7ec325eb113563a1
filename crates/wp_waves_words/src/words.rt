/// The names of the files from which waves are made, and the numbers that they go by.
#[derive(Drop)]
pub struct WavesWords {
    pub layout: String,
    pub stock: String,
    pub orders: String,
    /// The most orders that a wave may have, 1 to 64.
    pub wave: u32,
    /// The most orders that a batch may have, 1 to 8.
    pub capacity: u32,
    /// The most units that a cart holds, 1 to 40,000,000; none where carts have no such limit.
    pub units: Option<u32>,
    /// The name of the open file; none where all orders of the order file are open that lie in no wave.
    pub open_file: Option<String>,
    /// The name of the journal after which the waves go out; none where the day begins.
    pub journal: Option<String>,
    /// The most waves that go out, 1 to 500.
    pub most: u32,
    /// The desk that sends them out, 1 to 8.
    pub desk: u32,
    /// How often orders may change places between waves, 0 to 1,000 times.
    pub effort: u32,
}
