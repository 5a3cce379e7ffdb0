//! Numbers of a text.
ghost use Rattle.std.specs.Prelude.{◌≡◌, ◌^◌, ◌<◌, ◌≤◌, IfSome};
ghost use Rattle.std.specs.Char.{is_ascii_digit};
ghost use Rattle.iv_lines.specs.Number.{number, number_up_to};

/// The number that the bytes spell: 1 to 10 decimal digits.
pub fn read_number(bytes: &[u8]) -> Option<u64>
    ensures value { result ≡ number bytes.now }
{
    read_digits(bytes, 10)
}

/// The number that the bytes spell: 1 to `most` decimal digits. `most` is at most 19.
pub fn read_digits(bytes: &[u8], most: usize) -> Option<u64>
    requires { most ≤ 19 }
    ensures value { result ≡ number_up_to most bytes.now }
    ensures small { IfSome result (λ n. n < 10 ^ most) }
{
    if bytes.is_empty() || bytes.len() > most {
        return None;
    }
    let mut value: u64 = 0;
    for b in bytes {
        if !b.is_ascii_digit() {
            return None;
        }
        value = value * 10 + (*b - b'0') as u64;
    }
    Some(value)
}
