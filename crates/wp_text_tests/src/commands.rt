//! Replies and entries of numbers that no small run has, and what lack of memory prints.

use std::alloc::Global;
use std::fmt;
use wp_model::{Command, Entry, Memory, Name, Reply};

fn prints<T: fmt::Display>(alloc: Global, value: &T, text: &str) -> Result<bool, Memory> {
    Ok(value.to_string(alloc)?.as_str() == text)
}

fn short() -> Reply {
    Reply::Short {
        article: Name::new(b"A_3.x").unwrap(),
        wanted: u64::MAX,
        free: 0,
    }
}

#[test]
fn replies_of_the_greatest_numbers_are_printed(rt: HostRuntime) {
    assert_eq!(rt;
        prints(
            rt.alloc(),
            &short(),
            "refused short A_3.x 18446744073709551615 0"
        ),
        Ok(true)
    );
    assert_eq!(rt;
        prints(
            rt.alloc(),
            &Reply::TooMany(u32::MAX),
            "refused too-many 4294967295"
        ),
        Ok(true)
    );
}

/// The last entry of the longest journal.
fn last_entry() -> Entry {
    Entry {
        number: 9999,
        desk: 8,
        command: Command::Release {
            wave: Name::new(b"W1").unwrap(),
        },
        reply: Reply::UnknownWave,
    }
}

fn entry_prints(alloc: Global, entry: &Entry, text: &str) -> Result<bool, Memory> {
    Ok(prints(alloc, entry, text)? && prints(alloc, &entry.copy(alloc)?, text)?)
}

#[test]
fn the_last_entry_and_its_copy_are_printed(rt: HostRuntime) {
    assert_eq!(rt;
        entry_prints(
            rt.alloc(),
            &last_entry(),
            "9999 8 release W1 -> refused unknown-wave"
        ),
        Ok(true)
    );
}

#[test]
fn lack_of_memory_is_told(rt: HostRuntime) {
    assert_eq!(rt; prints(rt.alloc(), &Memory, "out of memory"), Ok(true));
}
