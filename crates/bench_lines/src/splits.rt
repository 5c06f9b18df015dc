// Bytes cut at a separator.
ghost use Rattle.std.specs.Prelude.{◌≡◌, ◌==◌, position};
ghost use Rattle.std.specs.Option.{option_map};
ghost use Rattle.bench_lines.specs.Splits.{cut, parts};

// Where the first separator stands.
fn find(bytes: &[u8], separator: u8) -> Option<usize>
    ensures { result ≡ position (λ b. b == separator) bytes.now }
{
    bytes.iter().position(|byte| *byte == separator)
}

// The bytes before the first separator and those after it; `None` where there is no separator.
pub fn split_once(bytes: &[u8], separator: u8) -> Option<(&[u8], &[u8])>
    ensures { option_map parts result ≡ cut separator bytes.now }
{
    let at = find(bytes, separator)?;
    Some((&bytes[..at], &bytes[at + 1..]))
}
