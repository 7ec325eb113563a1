//! What of names, numbers and locations no whole run shows.

use wp_model::{Location, Side, read_number};

/// Texts, and the number that each is of no digits at most.
const OF_NO_DIGITS: &[(&str, Option<u64>)] = &[("", None), ("0", None)];

fn misread_number() -> Option<&'static str> {
    for (text, number) in OF_NO_DIGITS {
        if read_number(text.as_bytes(), 0) != *number {
            return Some(*text);
        }
    }
    None
}

#[test]
fn no_number_has_no_digits(rt: HostRuntime) {
    assert_eq!(rt; misread_number(), None);
}

const PLACE: Location = Location {
    aisle: 3,
    slot: 17,
    side: Side::L,
};

const FAR_PLACE: Location = Location {
    aisle: 99999,
    slot: 0,
    side: Side::R,
};

#[test]
fn locations_have_an_aisle_a_slot_and_a_side(rt: HostRuntime) {
    assert_eq!(rt; Location::read(b"003-17-L"), Some(PLACE));
    assert_eq!(rt; Location::read(b"99999-000-R"), Some(FAR_PLACE));
}
