//! Numbers as the journal's words.
ghost use Rattle.std.specs.Prelude.{◌≡◌};
ghost use Rattle.wp_journal.specs.Numbers.{next_whole, small_of, whole_of};

fn next_whole(number: u64, byte: u8) -> Option<u64>
    ensures { result ≡ next_whole number byte }
{
    if !byte.is_ascii_digit() {
        return None;
    }
    number.checked_mul(10)?.checked_add(u64::from(byte - b'0'))
}

/// The number of 64 bits that a word of digits writes.
pub fn read_whole(word: &[u8]) -> Option<u64>
    ensures { result ≡ whole_of word.now }
{
    let mut number = 0;
    for byte in word {
        number = next_whole(number, *byte)?;
    }
    Some(number)
}

/// The number of 32 bits that a word of digits writes.
pub fn read_small(word: &[u8]) -> Option<u32>
    ensures { result ≡ small_of word.now }
{
    let number = read_whole(word)?;
    if number > u64::from(u32::MAX) {
        return None;
    }
    Some(number as u32)
}
