ghost use Rattle.std.specs.Prelude.{◌≤◌};

/// How many orders a batch may have: at most so many, 1 to 8.
#[derive(Clone, Copy)]
pub struct Capacity {
    pub most: u32,
    pub ghost some: { 1 ≤ most },
    pub ghost few: { most ≤ 8 },
}
