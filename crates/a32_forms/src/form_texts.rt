//! The forms of a text.
ghost use Rattle.std.specs.Prelude.{◌≡◌};
ghost use Rattle.a32_forms.specs.Forms.{form_in};

use crate::cuts;

/// One of the forms of a text, which stand with `|` between, counted from 0; empty where it has none at that place.
pub fn form_in(forms: &[u8], at: usize) -> &[u8]
    ensures { result.now ≡ form_in forms.now at }
{
    let mut left = forms;
    for place in 0..at {
        let Some((_, after)) = cuts::from_code(left, b'|').split_first() else {
            return b"";
        };
        left = after;
    }
    cuts::before_code(left, b'|')
}
