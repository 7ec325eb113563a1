ghost use Rattle.std.specs.Prelude.{◌≡◌, ◌-◌, ◌≤◌, length, take};
ghost use Rattle.wp_model.specs.Limits.{most_aisles};
ghost use Rattle.wp_classes.specs.Choices.{route_of};

use crate::class::{Cross, Way};
use std::marker::Model;
use wp_model::MOST_AISLES;

/// A way for each aisle, and a crossing for each pair of neighbouring aisles.
#[derive(Drop)]
pub struct Choice {
    aisles: u32,
    ways: [Way; MOST_AISLES as usize],
    crosses: [Cross; MOST_AISLES as usize],
}

impl Model for Choice {
    ghost use Rattle.std.specs.Prelude.{◌-◌, ◌≤◌, take};
    ghost use Rattle.wp_model.specs.Limits.{most_aisles};
    ghost use Rattle.wp_classes.specs.Choices.{Choices};

    ghost Value = { Choices };

    ghost view = { λ c. record { ways = take c.aisles c.ways; crosses = take (c.aisles - 1) c.crosses } };

    ghost invariant = { λ c. c.aisles ≤ most_aisles };
}

impl Choice {
    /// The ways and crossings of so many aisles, at the fronts of these arrays.
    pub(crate) fn of(
        aisles: u32,
        ways: [Way; MOST_AISLES as usize],
        crosses: [Cross; MOST_AISLES as usize],
    ) -> Choice
        requires { aisles ≤ most_aisles }
        ensures ways { result.ways ≡ take aisles ways }
        ensures crosses { result.crosses ≡ take (aisles - 1) crosses }
    {
        Choice {
            aisles,
            ways,
            crosses,
        }
    }

    /// The way through an aisle, aisles being counted from 1.
    pub fn way(&self, aisle: u32) -> Way
        requires first { 1 ≤ aisle }
        requires last { aisle ≤ length self.now.ways }
        ensures { result ≡ (route_of self.now).way aisle }
    {
        self.ways[aisle as usize - 1]
    }

    /// The crossing from an aisle to the next, aisles being counted from 1.
    pub fn cross(&self, left: u32) -> Cross
        requires first { 1 ≤ left }
        requires last { left ≤ length self.now.crosses }
        ensures { result ≡ (route_of self.now).cross left }
    {
        self.crosses[left as usize - 1]
    }
}
