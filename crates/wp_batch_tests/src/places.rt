//! The places at which the lengths of batches are kept. They decide how fast a length is found and no answer, so no
//! public call shows them.
use wp_lengths::{Later, Part, Places};
use wp_pairs::Batch;

/// How many places one after the other are those of a batch and of all that begin with it, as a visit comes past them:
/// each is widened by up to so many of the orders from a first one on. None comes where a place is another one.
fn visited_places(
    places: &Places,
    orders: u32,
    batch: Batch,
    place: u64,
    later: Later,
) -> Option<u64> {
    if places.place_of(batch) != Some(place) {
        return None;
    }
    let mut count: u64 = 1;
    if later.most > 0 {
        for order in later.first..orders.min(64) {
            let next = place.saturating_add(count);
            let after = Later {
                first: order + 1,
                most: later.most - 1,
            };
            let visited = visited_places(places, orders, batch.with(order), next, after)?;
            count = count.saturating_add(visited);
        }
    }
    Some(count)
}

/// Numbers of orders, a capacity, and how many batches of at most so many orders there are.
const PLACES: &[(u32, u32, u64)] = &[
    (1, 1, 2),
    (1, 8, 2),
    (3, 2, 7),
    (3, 3, 8),
    (10, 0, 1),
    (10, 1, 11),
    (10, 3, 176),
    (10, 8, 1013),
    (12, 6, 2510),
    (30, 2, 466),
    (64, 1, 65),
    (64, 2, 2081),
];

/// The first row of which a visit doesn't come past all places one after the other.
fn wrong_places() -> Option<usize> {
    for (row, (orders, capacity, count)) in PLACES.iter().enumerate() {
        let places = Places::of(*orders, *capacity);
        let all = Later {
            first: 0,
            most: *capacity,
        };
        let visited = visited_places(&places, *orders, Batch::empty(), 0, all);
        if places.count() != *count || visited != Some(*count) {
            return Some(row);
        }
    }
    None
}

#[test]
fn a_visit_comes_past_one_place_after_the_other(rt: HostRuntime) {
    assert_eq!(rt; wrong_places(), None);
    assert_eq!(rt; Places::of(64, 3).count(), 43745);
    assert_eq!(rt; Places::of(64, 8).count(), 5130659561);
}

/// How many places of a part, with so many places, a visit comes past that goes on only from a batch where the part has
/// a place of it or of one that begins with it.
fn places_within(part: &Part<'_>, count: usize, orders: u32, batch: Batch, later: Later) -> u64 {
    let Some(span) = part.places.span_of(batch) else {
        return 0;
    };
    if !part.meets(span, count) {
        return 0;
    }
    let mut found: u64 = match part.place_of(span) {
        Some(place) if place < count as u64 => 1,
        _ => 0,
    };
    if later.most > 0 {
        for order in later.first..orders.min(64) {
            let after = Later {
                first: order + 1,
                most: later.most - 1,
            };
            let more = places_within(part, count, orders, batch.with(order), after);
            found = found.saturating_add(more);
        }
    }
    found
}

/// How many places visits of so many parts of all places come past together.
fn places_of_parts(orders: u32, capacity: u32, parts: u32) -> u64 {
    let places = Places::of(orders, capacity);
    let size = places.count().div_ceil(u64::from(parts.max(1)));
    let all = Later {
        first: 0,
        most: capacity,
    };
    let mut found: u64 = 0;
    for number in 0..parts {
        let part = Part {
            places: &places,
            start: size.saturating_mul(u64::from(number)),
        };
        let more = places_within(&part, size as usize, orders, Batch::empty(), all);
        found = found.saturating_add(more);
    }
    found
}

/// The first row, and a number of parts, of which visits come past more or fewer places than there are.
fn wrong_parts() -> Option<(usize, u32)> {
    for (row, (orders, capacity, count)) in PLACES.iter().enumerate() {
        for parts in [1, 2, 3, 16] {
            if places_of_parts(*orders, *capacity, parts) != *count {
                return Some((row, parts));
            }
        }
    }
    None
}

#[test]
fn visits_of_parts_come_past_all_places_once(rt: HostRuntime) {
    assert_eq!(rt; wrong_parts(), None);
}
