ghost use Rattle.std.specs.Prelude.{◌≡◌, ◌+◌, ◌≤◌, ◌++◌, length, decimal};
ghost use Rattle.page.specs.Text.{written, then_comma};

use arrayvec::ArrayString;

// Puts the decimal digits of `n` and a comma, at most 21 bytes, after a text.
#[inline(always)]
pub(crate) fn push_field<const CAP: usize>(text: &mut ArrayString<CAP>, n: u64)
    requires { length text.old.bytes + 21 ≤ CAP }
    ensures bytes { text.new.bytes ≡ text.old.bytes ++ then_comma (decimal n) }
    ensures longer { length text.new.bytes ≤ length text.old.bytes + 21 }
{
    let mut digits = itoa::Buffer::new();
    text.push_str(digits.format(n));
    text.push_str(",");
}

// Writes `text` over `buffer` from `at` on, and answers the place after it.
pub(crate) fn put(buffer: &mut [u8], at: usize, text: &str) -> usize
    requires { at + length text.now ≤ length buffer.old }
    ensures bytes { buffer.new ≡ written buffer.old at text.now }
    ensures place { result ≡ at + length text.now }
{
    let after = at + text.len();
    buffer[at..after].copy_from_slice(text.as_bytes());
    after
}
