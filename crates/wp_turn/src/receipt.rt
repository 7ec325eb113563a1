/// What a call gives beside the pass.
#[derive(Drop)]
pub struct Receipt<O> {
    /// The number of the call's entry in the list, counted from 0.
    pub number: u64,
    /// What the step answered.
    pub out: O,
}
