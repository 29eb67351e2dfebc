//! What a line adds to a program, or its first fault.
ghost use Rattle.std.specs.Prelude.{◌≡◌, ◌≤◌, ◌&&◌, if◌then◌else◌, Err};
ghost use Rattle.std.specs.Option.{option_map};
ghost use Rattle.a32_asm.specs.Layout.{may_stand};
ghost use Rattle.a32_asm.specs.Statements.{piece_of};
ghost use Rattle.a32_asm.specs.Assembled.{site_of, is_known, is_too_long, first_fault};
ghost use Rattle.a32_asm.specs.inner.Seen.{layout_seen, piece_seen};

use crate::layout::{Spot, TextLayout, stands};
use crate::lines::Line;
use crate::pieces::{Added, piece_of};
use a32_syntax::AsmKind;

/// The most bytes of a text.
pub const MOST_TEXT: usize = 4_194_304;

/// The most words of the code.
const MOST_WORDS: u64 = 65_536;

/// The most bytes of the data and the space together.
const MOST_DATA: u128 = 1_048_576;

/// What a line at its spot adds.
pub fn line_piece(layout: &TextLayout<'_>, spot: Spot, line: &Line<'_>) -> Result<Added, AsmKind>
    requires { spot.words ≤ 65536 }
    ensures { piece_seen result ≡ (if line.now.is_ascii && may_stand line.now.head spot
        then piece_of (site_of (layout_seen layout.now) spot) spot.in_data line.now.head line.now.statement.now else Err AsmKind.Syntax) }
{
    if !stands(spot, line) {
        return Err(AsmKind::Syntax);
    }
    piece_of(layout, spot, line)
}

/// Whether an earlier line than one that begins behind so many bytes has its label.
pub fn is_repeated(layout: &TextLayout<'_>, read: usize, label: Option<&[u8]>) -> bool
    ensures { result ≡ is_known (layout_seen layout.now) read (option_map (λ name. name.now) label.entry) }
{
    let Some(name) = label else {
        return false;
    };
    match layout.place(name) {
        Some(place) => place.at < read,
        None => false,
    }
}

/// Whether one of the limits is passed behind a line.
pub fn is_too_long(spot: Spot, read: usize) -> bool
    ensures { result ≡ is_too_long spot read }
{
    spot.words > MOST_WORDS
        || u128::from(spot.bytes) + u128::from(spot.space) > MOST_DATA
        || read > MOST_TEXT
}

/// The first fault of a line, if it has one.
pub fn first_fault(
    repeated: bool,
    too_long: bool,
    piece: Result<Added, AsmKind>,
) -> Result<Added, AsmKind>
    ensures { piece_seen result ≡ first_fault repeated too_long (piece_seen piece) }
{
    match piece {
        Err(AsmKind::Range) if repeated => Err(AsmKind::Repeated),
        Ok(_) if repeated => Err(AsmKind::Repeated),
        Ok(_) if too_long => Err(AsmKind::TooLong),
        _ => piece,
    }
}
