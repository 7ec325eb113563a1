use std::time::Duration;

/// How often who has no place yet looks before it sleeps.
pub(crate) const LOOKS_BEFORE: u32 = 16;

/// How often it looks at most, with a sleep after each of the later looks: then it draws a place whatever it saw.
pub(crate) const MOST_LOOKS: u32 = 64;

/// How often who has a place looks before it sleeps. All who come later wait for it.
pub(crate) const LOOKS_AT_PLACE: u32 = 256;

/// The first sleep, in nanoseconds.
const FIRST_SLEEP: u64 = 50_000;

/// How often a sleep is twice as long as the one before.
const DOUBLINGS: u32 = 4;

/// For how long who has looked some times before sleeps until the next look: not at all while these are fewer than it
/// stays awake for, and then longer from look to look, up to 0.8 milliseconds.
pub(crate) fn sleep_after(looks: u32, awake: u32) -> Option<Duration> {
    let sleeps = looks.checked_sub(awake)?;
    Some(Duration::from_nanos(FIRST_SLEEP << sleeps.min(DOUBLINGS)))
}
