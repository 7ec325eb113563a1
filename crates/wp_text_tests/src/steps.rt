//! Steps of layouts, and what is rounded up to them.
use std::alloc::Global;
use wp_cuts::{rounded_up, step_of};
use wp_layout::read_layout;
use wp_model::Memory;

/// Texts of layouts, and the steps of their layouts.
const STEPS: &[(&[u8], u32)] = &[
    (
        b"{\"aisles\":3,\"clearance\":1,\"depot\":1,\"pitch\":2,\"slots\":4,\"spacing\":5,\"version\":1}",
        2,
    ),
    (
        b"{\"aisles\":10,\"clearance\":150,\"depot\":1,\"pitch\":100,\"slots\":45,\"spacing\":300,\"version\":1}",
        100,
    ),
    (
        b"{\"aisles\":1,\"clearance\":7,\"depot\":1,\"pitch\":2,\"slots\":1,\"spacing\":5,\"version\":1}",
        14,
    ),
    (
        b"{\"aisles\":1,\"clearance\":7,\"depot\":1,\"pitch\":2,\"slots\":2,\"spacing\":5,\"version\":1}",
        2,
    ),
    (
        b"{\"aisles\":2,\"clearance\":7,\"depot\":1,\"pitch\":2,\"slots\":1,\"spacing\":21,\"version\":1}",
        14,
    ),
    (
        b"{\"version\":2,\"aisles\":3,\"slots\":1,\"pitch\":5,\"clearance\":8,\"spacings\":[12,20],\"depot\":1,\"end\":\"back\"}",
        8,
    ),
    (
        b"{\"version\":2,\"aisles\":3,\"slots\":2,\"pitch\":6,\"clearance\":9,\"spacings\":[12,20],\"depot\":1,\"end\":\"back\"}",
        2,
    ),
    (
        b"{\"aisles\":64,\"clearance\":10000,\"depot\":64,\"pitch\":10000,\"slots\":200,\"spacing\":10000,\"version\":1}",
        20000,
    ),
];

/// A step, sixtieths of a unit of length, and these in whole units, rounded up to the step.
const ROUNDED: &[(u32, u128, u128)] = &[
    (1, 0, 0),
    (1, 1, 1),
    (1, 60, 1),
    (1, 61, 2),
    (2, 3060, 52),
    (2, 4080, 68),
    (2, 4081, 70),
    (14, 420, 14),
    (100, 27000, 500),
    (100, 30000, 500),
    (20000, 1, 20000),
];

/// Whether the layout that a text says has such a step.
fn has_step(alloc: Global, text: &[u8], step: u32) -> Result<bool, Memory> {
    match read_layout(alloc, &text.to_vec(alloc)?) {
        Ok(layout) => Ok(step_of(&layout) == step),
        Err(_) => Ok(false),
    }
}

/// The first text whose layout has another step.
fn misjudged(alloc: Global) -> Result<Option<&'static [u8]>, Memory> {
    for (text, step) in STEPS {
        if !has_step(alloc, *text, *step)? {
            return Ok(Some(*text));
        }
    }
    Ok(None)
}

#[test]
fn steps_follow_from_layouts(rt: HostRuntime) {
    assert_eq!(rt; misjudged(rt.alloc()), Ok(None));
}

/// The first row that is rounded otherwise.
fn misrounded() -> Option<(u32, u128)> {
    for (step, sixtieths, units) in ROUNDED {
        if *step == 0 || rounded_up(*step, *sixtieths) != *units {
            return Some((*step, *sixtieths));
        }
    }
    None
}

#[test]
fn sixtieths_are_rounded_up_to_steps(rt: HostRuntime) {
    assert_eq!(rt; misrounded(), None);
}
