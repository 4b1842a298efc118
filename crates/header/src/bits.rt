ghost use Rattle.std.specs.Prelude.{◌≡◌, ◌+◌, ◌-◌, ◌*◌, ◌/◌, ◌%◌, ◌^◌, ◌<◌, ◌≤◌, length, take};
ghost use Rattle.std.specs.Int.Digits.{number_from_digits};

// The number that at most five bytes write, high bytes first.
pub(crate) fn number(bytes: &[u8]) -> u64
    requires { length bytes.now ≤ 5 }
    ensures { result ≡ number_from_digits 256 bytes.now }
{
    let mut number: u64 = 0;
    for byte in bytes {
        number = number * 256 + u64::from(*byte);
    }
    number
}

// The number in the bits of the page from one place up to another.
pub(crate) fn bits(page: &[u8], from: usize, to: usize) -> u32
    requires long { 18 ≤ length page.now }
    requires some { from ≤ to }
    requires few { to ≤ from + 32 }
    requires within { to ≤ 144 }
    ensures { result ≡ number_from_digits 256 (take 18 page.now) / 2 ^ (144 - to) % 2 ^ (to - from) }
{
    let end = (to + 7) / 8;
    let all = number(&page[from / 8..end]) >> (8 * end - to);
    (all % (1 << (to - from))) as u32
}
