//! Texts that are cut at a byte.
ghost use Rattle.std.specs.Prelude.{◌≡◌};
ghost use Rattle.a32_forms.specs.Cuts.{before_code, from_code};

/// A text from the first of a byte on; empty where it has none.
#[tactic(auto, unfolding(crate::specs::Cuts::from_code))]
pub fn from_code(text: &[u8], code: u8) -> &[u8]
    ensures { result.now ≡ from_code code text.now }
{
    let mut rest = text;
    while let Some((byte, after)) = rest.split_first() {
        if *byte == code {
            return rest;
        }
        rest = after;
    }
    rest
}

/// A text before the first of a byte; all of it where it has none.
#[tactic(auto, using(crate::proofs::CutTexts::before_from, crate::proofs::CutTexts::before_is))]
pub fn before_code(text: &[u8], code: u8) -> &[u8]
    ensures { result.now ≡ before_code code text.now }
{
    &text[..text.len() - from_code(text, code).len()]
}
