ghost use Rattle.std.specs.Prelude.{◌≡◌, ◌≤◌, ◌<◌, ◌^◌, IfSome, length};
ghost use Rattle.wp_model.specs.Number.{number_of};

/// The number that a text of 1 to `most` ASCII digits writes, where leading zeros are allowed. None comes
/// exactly where the text isn't of that form.
pub fn read_number(text: &[u8], most: usize) -> Option<u64>
    requires { most ≤ 18 }
    ensures number { result ≡ number_of most text.now }
    ensures bound { IfSome result (λ number. number < 10 ^ most) }
{
    if text.is_empty() || text.len() > most {
        return None;
    }
    let mut number: u64 = 0;
    for byte in text {
        if !byte.is_ascii_digit() {
            return None;
        }
        number = number * 10 + u64::from(*byte - b'0');
    }
    Some(number)
}
