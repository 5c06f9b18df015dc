// Numbers in decimal digits.
ghost use Rattle.std.specs.Prelude.{◌≡◌, ◌≤◌, IfSome};
ghost use Rattle.bench_lines.specs.Numbers.{with_digit, number_to};

// The number with one digit more; `None` where the byte is no digit or the number comes above `most`.
fn append_digit(number: u32, byte: u8, most: u32) -> Option<u32>
    ensures { result ≡ with_digit most number byte }
{
    if !byte.is_ascii_digit() {
        return None;
    }
    let longer = u64::from(number) * 10 + u64::from(byte - b'0');
    if longer > u64::from(most) {
        return None;
    }
    Some(longer as u32)
}

// The number that a word of decimal digits says, if it is not above `most`.
pub fn parse_number(word: &[u8], most: u32) -> Option<u32>
    ensures value { result ≡ number_to most word.now }
    ensures bound { IfSome result (λ n. n ≤ most) }
{
    if word.is_empty() {
        return None;
    }
    word.iter()
        .try_fold(0, |number, byte| append_digit(number, *byte, most))
}
