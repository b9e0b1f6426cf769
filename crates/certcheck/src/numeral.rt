//! Numbers without leading zeros.
ghost use Rattle.std.specs.Prelude.{◌≡◌, ◌≤◌, IfSome};
ghost use Rattle.certcheck.specs.Reading as spec;

use itoa::Buffer;

/// The number of at most so much whose decimal digits the text is, without leading zeros.
pub fn spelled_number(most: u64, text: &[u8]) -> Option<u64>
    ensures exact { result ≡ spec.spelled_number most text.now }
    ensures most { IfSome result (λ number. number ≤ most) }
{
    let mut value: u64 = 0;
    for byte in text {
        if !byte.is_ascii_digit() {
            return None;
        }
        value = value.checked_mul(10)?.checked_add(u64::from(*byte - b'0'))?;
    }
    let mut buffer = Buffer::new();
    if value <= most && buffer.format(value).as_bytes() == text {
        Some(value)
    } else {
        None
    }
}
