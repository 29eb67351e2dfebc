//! Where the lines of a text stand, and where its labels do.
ghost use Rattle.std.specs.Prelude.{◌≡◌, ◌+◌, ◌<◌, ◌^◌, ◌&&◌, ◌++◌, IfOk, OnOk, codes};
ghost use Rattle.std.specs.Option.{option_map};
ghost use Rattle.a32_forms.specs.Text.{parts};
ghost use Rattle.a32_forms.specs.Forms.{chosen};
ghost use Rattle.a32_asm.specs.Lines.{lines_of};
ghost use Rattle.a32_asm.specs.Layout.{may_stand, space_of, behind, offset_of, place, address_at, address_of, layout_of};
ghost use Rattle.a32_asm.specs.inner.Seen.{spot_behind, places_here, layout_seen};

use crate::heads::Head;
use crate::labels::SortedLabels;
use crate::lines::{Line, first_line, operands_of, read_line};
use crate::places::LabelPlace;
use a32_forms::chosen;
use llsc_base::CODE_START;
use std::alloc::{AllocError, Global};

/// A place between two lines: the section, the code words and the data bytes before it, and the space, with
/// whether there was any, also of no bytes. Counts are taken modulo 2 to the 64.
#[derive(Clone, Copy)]
pub struct Spot {
    pub in_data: bool,
    pub words: u64,
    pub bytes: u64,
    pub spaced: bool,
    pub space: u64,
}

/// A text begins in its code.
pub const START: Spot = Spot {
    in_data: false,
    words: 0,
    bytes: 0,
    spaced: false,
    space: 0,
};

/// Whether a statement may stand at a spot.
fn may_stand(head: Head, spot: Spot) -> bool
    ensures { result ≡ may_stand head spot }
{
    match head {
        Head::Nothing | Head::Text | Head::Data => true,
        Head::Word => !(spot.in_data && spot.spaced),
        Head::Byte => spot.in_data && !spot.spaced,
        Head::Space => spot.in_data,
        Head::Instruction => !spot.in_data,
        Head::Unreadable => false,
    }
}

/// Whether a line is of the form of lines, and its statement may stand at the spot.
pub fn stands(spot: Spot, line: &Line<'_>) -> bool
    ensures { result ≡ (line.now.is_ascii && may_stand line.now.head spot) }
{
    line.is_ascii && may_stand(line.head, spot)
}

/// The number of a `.space`, 0 where its operands are none.
fn space_of(operands: &[u8]) -> u64
    ensures { result ≡ space_of (chosen (codes "n") (parts operands.now)) }
{
    match chosen(b"n", operands) {
        Some(found) => found.number(0),
        None => 0,
    }
}

/// The spot behind a statement.
fn behind(head: Head, operands: &[u8], spot: Spot) -> Spot
    ensures { result ≡ behind head operands.now spot }
{
    let mut next = spot;
    match head {
        Head::Text => next.in_data = false,
        Head::Data => next.in_data = true,
        Head::Word if spot.in_data => next.bytes = spot.bytes.wrapping_add(4),
        Head::Word | Head::Instruction => next.words = spot.words.wrapping_add(1),
        Head::Byte => next.bytes = spot.bytes.wrapping_add(1),
        Head::Space => {
            next.spaced = true;
            next.space = spot.space.wrapping_add(space_of(operands));
        }
        Head::Nothing | Head::Unreadable => {}
    }
    next
}

/// The spot behind a line; one that can't stand there takes no place.
pub fn next_spot(spot: Spot, line: &Line<'_>) -> Spot
    ensures { result ≡ spot_behind spot line.now }
{
    if !stands(spot, line) {
        return spot;
    }
    behind(line.head, operands_of(line.statement), spot)
}

/// What the lines of a text say of one another: the places of its labels, and how many words its code has.
#[derive(Drop)]
pub struct TextLayout<'a> {
    labels: SortedLabels<'a>,
    words: u64,
}

impl TextLayout<'_> {
    /// The place of the first label of a name.
    pub fn place(&self, name: &[u8]) -> Option<LabelPlace>
        ensures { result ≡ (layout_seen self.now).places name.now }
    {
        self.labels.place(name)
    }

    /// The address of a label.
    pub fn label_address(&self, name: &[u8]) -> Option<u32>
        ensures { result ≡ address_of (layout_seen self.now) name.now }
    {
        let place = self.labels.place(name)?;
        Some(address_at(self.words, place))
    }
}

/// The address of a place, modulo 2 to the 32, where the code has so many words.
fn address_at(words: u64, place: LabelPlace) -> u32
    ensures { result ≡ address_at words place }
{
    let code_start = u128::from(CODE_START);
    if !place.in_data {
        return ((code_start + u128::from(place.offset)) % 0x1_0000_0000) as u32;
    }
    let data_start = (code_start + 4 * u128::from(words) + 4095) / 4096 * 4096;
    ((data_start + u128::from(place.offset)) % 0x1_0000_0000) as u32
}

/// How many bytes of its section are before a spot, modulo 2 to the 32.
fn offset_of(spot: Spot) -> u32
    ensures { result ≡ offset_of spot }
{
    if spot.in_data {
        return ((u128::from(spot.bytes) + u128::from(spot.space)) % 0x1_0000_0000) as u32;
    }
    ((4 * u128::from(spot.words)) % 0x1_0000_0000) as u32
}

/// Adds the place of a line's label, if the line has one: it stands behind so many bytes of text.
fn add_place(
    places: &mut Vec<LabelPlace>,
    spot: Spot,
    at: usize,
    label: Option<&[u8]>,
) -> Result<(), AllocError>
    ensures { OnOk result (places.new.items ≡ places.old.items ++ places_here (place spot at) (option_map (λ name. name.now) label.entry)) }
{
    if label.is_none() {
        return Ok(());
    }
    Ok(places.push(LabelPlace {
        at,
        in_data: spot.in_data,
        offset: offset_of(spot),
    })?)
}

/// Reads where the lines of a text stand.
pub fn lay_out(alloc: Global, text: &[u8]) -> Result<TextLayout<'_>, AllocError>
    ensures { IfOk result (λ layout. layout_seen layout ≡ layout_of (lines_of text.now)) }
{
    let mut places = Vec::new(alloc);
    let mut spot = START;
    let mut left = Some(text);
    while let Some(rest) = left {
        let (line, after) = first_line(rest);
        let line = read_line(line);
        let read = text.len() - rest.len();
        add_place(&mut places, spot, read + line.indent, line.label)?;
        spot = next_spot(spot, &line);
        left = after;
    }
    Ok(TextLayout {
        labels: SortedLabels::new(text, places),
        words: spot.words,
    })
}
