//! Fields of a text: words that each have one byte behind them.
ghost use Rattle.std.specs.Prelude.{◌≡◌, ℕ, List, option_map};
ghost use Rattle.number_text.specs.Decimal.{plain_number};
ghost use Rattle.run_record.specs.Fields.{after, cut, field};
ghost use Rattle.run_record.specs.inner.Seen.{read_seen};

/// What stands behind a text, if the bytes begin with it.
pub fn after<'a>(text: &[u8], bytes: &'a [u8]) -> Option<&'a [u8]>
    ensures { option_map (λ rest. rest.now) result ≡ after text.now bytes.now }
{
    bytes.strip_prefix(text)
}

/// The word before the first of a byte, and what stands behind that.
pub fn cut(code: u8, bytes: &[u8]) -> Option<(&[u8], &[u8])>
    ensures { option_map (λ parts. (parts.0.now, parts.1.now)) result ≡ cut code bytes.now }
{
    for (at, byte) in bytes.iter().enumerate() {
        if *byte == code {
            return Some((&bytes[..at], &bytes[at + 1..]));
        }
    }
    None
}

/// The number of the word before the first of a byte.
pub fn number_field(code: u8, bytes: &[u8]) -> Option<(u64, &[u8])>
    ensures { read_seen result ≡ field plain_number code bytes.now }
{
    let (word, rest) = cut(code, bytes)?;
    let number = number_text::plain_number(word)?;
    Some((number, rest))
}
