//! Layout files that are read, and what their layouts are printed as.
use std::alloc::Global;
use wp_layout::{print_layout, read_layout};
use wp_model::Memory;

/// Texts of layouts, and what their layouts are printed as.
const PRINTED: &[(&[u8], &str)] = &[
    (
        b"{\"aisles\":3,\"clearance\":1,\"depot\":2,\"pitch\":2,\"slots\":4,\"spacing\":5,\"version\":1}",
        "{\"aisles\":3,\"clearance\":1,\"depot\":2,\"pitch\":2,\"slots\":4,\"spacing\":5,\"version\":1}",
    ),
    (
        b"{\"aisles\":64,\"clearance\":9999,\"depot\":64,\"pitch\":10000,\"slots\":200,\"spacing\":9998,\"version\":1}",
        "{\"aisles\":64,\"clearance\":9999,\"depot\":64,\"pitch\":10000,\"slots\":200,\"spacing\":9998,\"version\":1}",
    ),
    (
        b"{\"version\":1,\"aisles\":3,\"slots\":4,\"pitch\":2,\"clearance\":1,\"spacing\":5,\"depot\":1}",
        "{\"aisles\":3,\"clearance\":1,\"depot\":1,\"pitch\":2,\"slots\":4,\"spacing\":5,\"version\":1}",
    ),
    (
        b"\n { \"depot\" : 2,\t\"spacing\": 5, \"clearance\": 1, \"pitch\": 2, \"slots\": 4, \"aisles\": 3, \"version\": 1 } \r\n",
        "{\"aisles\":3,\"clearance\":1,\"depot\":2,\"pitch\":2,\"slots\":4,\"spacing\":5,\"version\":1}",
    ),
    (
        b"{\"version\":1,\"aisles\":65,\"slots\":4,\"pitch\":2,\"clearance\":1,\"spacing\":5,\"depot\":1,\"aisles\":3}",
        "{\"aisles\":3,\"clearance\":1,\"depot\":1,\"pitch\":2,\"slots\":4,\"spacing\":5,\"version\":1}",
    ),
    (
        b"{\"version\":1,\"\\u0061isles\":3,\"slots\":4,\"pitch\":2,\"clearance\":1,\"spacing\":5,\"depot\":1}",
        "{\"aisles\":3,\"clearance\":1,\"depot\":1,\"pitch\":2,\"slots\":4,\"spacing\":5,\"version\":1}",
    ),
    (
        b"{\"version\":2,\"aisles\":3,\"slots\":4,\"pitch\":2,\"clearance\":1,\"spacings\":[5,20],\"depot\":1,\"end\":\"front\"}",
        "{\"aisles\":3,\"clearance\":1,\"depot\":1,\"end\":\"front\",\"pitch\":2,\"slots\":4,\"spacings\":[5,20],\"version\":2}",
    ),
    (
        b"{\"version\":2,\"aisles\":3,\"slots\":4,\"pitch\":2,\"clearance\":1,\"spacings\":[5,5],\"depot\":2,\"end\":\"back\"}",
        "{\"aisles\":3,\"clearance\":1,\"depot\":2,\"end\":\"back\",\"pitch\":2,\"slots\":4,\"spacings\":[5,5],\"version\":2}",
    ),
    (
        b"{\"version\":2,\"aisles\":3,\"slots\":4,\"pitch\":2,\"clearance\":1,\"spacings\":[5,5],\"depot\":2,\"end\":\"front\"}",
        "{\"aisles\":3,\"clearance\":1,\"depot\":2,\"pitch\":2,\"slots\":4,\"spacing\":5,\"version\":1}",
    ),
    (
        b"{\"version\":2,\"aisles\":1,\"slots\":4,\"pitch\":2,\"clearance\":1,\"spacings\":[],\"depot\":1,\"end\":\"back\"}",
        "{\"aisles\":1,\"clearance\":1,\"depot\":1,\"end\":\"back\",\"pitch\":2,\"slots\":4,\"spacings\":[],\"version\":2}",
    ),
    (
        b"{\"version\":1,\"aisles\":1,\"slots\":4,\"pitch\":2,\"clearance\":1,\"spacing\":7,\"depot\":1}",
        "{\"aisles\":1,\"clearance\":1,\"depot\":1,\"end\":\"front\",\"pitch\":2,\"slots\":4,\"spacings\":[],\"version\":2}",
    ),
];

/// Whether the layout that a text says is printed so.
fn is_printed_as(alloc: Global, text: &[u8], printed: &str) -> Result<bool, Memory> {
    match read_layout(alloc, &text.to_vec(alloc)?) {
        Ok(layout) => Ok(print_layout(alloc, &layout)?.as_slice() == printed.as_bytes()),
        Err(_) => Ok(false),
    }
}

/// The first text whose layout is printed otherwise.
fn misprinted(alloc: Global) -> Result<Option<&'static str>, Memory> {
    for (text, printed) in PRINTED {
        if !is_printed_as(alloc, *text, *printed)? {
            return Ok(Some(*printed));
        }
    }
    Ok(None)
}

#[test]
fn layouts_are_read_and_printed_in_one_form(rt: HostRuntime) {
    assert_eq!(rt; misprinted(rt.alloc()), Ok(None));
}
