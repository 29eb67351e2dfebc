//! The labels of a text by their names.
ghost use Rattle.std.specs.Prelude.{◌≡◌, ℕ, List, map};
ghost use Rattle.std.specs.List.Sorted.{IsSorted};
ghost use Rattle.a32_forms.specs.Cuts.{before_code};
ghost use Rattle.a32_asm.specs.inner.Places.{order_of};

use crate::places::{LabelPlace, compare_names, order_of, text_at};
use a32_forms::before_code;

/// The labels of a text, in the order of their names, and those of one name as the text has them.
#[derive(Drop)]
pub struct SortedLabels<'a> {
    text: &'a [u8],
    places: Vec<LabelPlace>,
    ghost in_order: { IsSorted (order_of text.now) places.items },
}

impl<'a> SortedLabels<'a> {
    ghost use Rattle.a32_asm.specs.Layout.{place_in};
    ghost use Rattle.a32_asm.specs.inner.Places.{label_at, AreBefore, Rise};
    ghost use Rattle.a32_asm.specs.inner.Labels.{place_named};

    /// The labels at places of a text, which are given as the text has them.
    pub fn new(text: &'a [u8], mut places: Vec<LabelPlace>) -> SortedLabels<'a>
        requires { Rise 0 places.items }
        ensures { (name : List ℕ) → place_named result name ≡ place_in (map (label_at text.now) places.items) name }
    {
        places.sort_unstable_by(|first, second| order_of(text, first, second));
        SortedLabels { text, places }
    }

    /// How many labels have names before a name, which ends before a colon.
    fn count_before(&self, name: &[u8]) -> usize
        ensures { AreBefore self.now.text.now (before_code 58 name.now) self.now.places.items result }
    {
        let text = self.text;
        self.places
            .partition_point(|place| compare_names(text_at(text, place), name).is_lt())
    }

    /// The place of the first label of a name.
    pub fn place(&self, name: &[u8]) -> Option<LabelPlace>
        ensures { result ≡ place_named self.now name.now }
    {
        if before_code(name, b':').len() < name.len() {
            return None;
        }
        let place = self.places.get(self.count_before(name))?;
        if compare_names(text_at(self.text, place), name).is_ne() {
            return None;
        }
        Some(*place)
    }
}
