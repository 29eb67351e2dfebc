//! The lines of accesses.
ghost use Rattle.std.specs.Prelude.{◌≡◌, ◌^◌, codes, nat_lt};
ghost use Rattle.llsc_base.specs.Memory.{size_bytes};
ghost use Rattle.number_text.specs.Hexadecimal.{long_number, word_number};
ghost use Rattle.run_record.specs.Fields.{after, field};
ghost use Rattle.run_record.specs.Reading.{clear_or, deed_of, is_whole, line_access, next_access, object_access, size_of};
ghost use Rattle.run_record.specs.inner.Seen.{access_seen, line_seen, read_seen, told_access};

use crate::faults::RecordFault;
use crate::fields::{after, cut, number_field};
use history::{Access, Deed};
use llsc_base::{Place, Size};
use number_text::{long_number, word_number};

/// What a line tells of: an access, of a thread that may not be one of the run's.
#[derive(Clone, Copy)]
pub struct Told {
    pub thread: u64,
    pub deed: Deed,
    pub place: Place,
    pub value: u64,
}

/// The deed of a word.
fn deed_of(word: &[u8]) -> Option<Deed>
    ensures { result ≡ deed_of word.now }
{
    if word == b"load".as_slice() {
        return Some(Deed::Load);
    }
    if word == b"loadex".as_slice() {
        return Some(Deed::LoadEx);
    }
    if word == b"store".as_slice() {
        return Some(Deed::Store);
    }
    if word == b"storeex".as_slice() {
        return Some(Deed::StoreEx);
    }
    if word == b"fail".as_slice() {
        return Some(Deed::StoreFail);
    }
    None
}

/// The size of a word.
fn size_of(word: &[u8]) -> Option<Size>
    ensures { result ≡ size_of word.now }
{
    if word == b"1".as_slice() {
        return Some(Size::B1);
    }
    if word == b"2".as_slice() {
        return Some(Size::B2);
    }
    if word == b"4".as_slice() {
        return Some(Size::B4);
    }
    if word == b"8".as_slice() {
        return Some(Size::B8);
    }
    None
}

/// Whether a value has no more bytes than a size.
#[inline(always)]
fn fits(value: u64, size: Size) -> bool
    ensures { result ≡ nat_lt value (256 ^ size_bytes size) }
{
    match size {
        Size::B1 => value < 1 << 8,
        Size::B2 => value < 1 << 16,
        Size::B4 => value < 1 << 32,
        Size::B8 => true,
    }
}

/// Whether the place is aligned and the value fits.
#[inline(always)]
fn is_whole(told: Told) -> bool
    ensures { result ≡ is_whole (told_access told) }
{
    told.place.is_aligned() && fits(told.value, told.place.size)
}

/// The deed of a word with a blank behind it.
fn deed_field(bytes: &[u8]) -> Option<(Deed, &[u8])>
    ensures { read_seen result ≡ field deed_of 32 bytes.now }
{
    let (word, rest) = cut(b' ', bytes)?;
    let deed = deed_of(word)?;
    Some((deed, rest))
}

/// The size of a word with a blank behind it.
fn size_field(bytes: &[u8]) -> Option<(Size, &[u8])>
    ensures { read_seen result ≡ field size_of 32 bytes.now }
{
    let (word, rest) = cut(b' ', bytes)?;
    let size = size_of(word)?;
    Some((size, rest))
}

/// The address of eight digits with a blank behind them.
fn address_field(bytes: &[u8]) -> Option<(u32, &[u8])>
    ensures { read_seen result ≡ field word_number 32 bytes.now }
{
    let (word, rest) = cut(b' ', bytes)?;
    let addr = word_number(word)?;
    Some((addr, rest))
}

/// The value of sixteen digits with a newline behind them.
fn value_field(bytes: &[u8]) -> Option<(u64, &[u8])>
    ensures { read_seen result ≡ field long_number 10 bytes.now }
{
    let (word, rest) = cut(b'\n', bytes)?;
    let value = long_number(word)?;
    Some((value, rest))
}

/// The access of a thread, behind its number, other than a clear.
fn object_access(thread: u64, bytes: &[u8]) -> Option<(Told, &[u8])>
    ensures { line_seen result ≡ object_access thread bytes.now }
{
    let (deed, rest) = deed_field(bytes)?;
    let (size, rest) = size_field(rest)?;
    let (addr, rest) = address_field(rest)?;
    let (value, rest) = value_field(rest)?;
    let told = Told {
        thread,
        deed,
        place: Place { addr, size },
        value,
    };
    if !is_whole(told) {
        return None;
    }
    Some((told, rest))
}

/// The access of a thread, behind its number.
fn thread_access(thread: u64, bytes: &[u8]) -> Option<(Told, &[u8])>
    ensures { line_seen result ≡ clear_or thread (after (codes "clear\n") bytes.now) bytes.now }
{
    let Some(rest) = after(b"clear\n", bytes) else {
        return object_access(thread, bytes);
    };
    let told = Told {
        thread,
        deed: Deed::Clear,
        place: Place::NOWHERE,
        value: 0,
    };
    Some((told, rest))
}

/// The access of the line that bytes begin with, and what stands behind it.
#[tactic(auto, unfolding(crate::specs::Reading::line_access))]
fn line_access(bytes: &[u8]) -> Option<(Told, &[u8])>
    ensures { line_seen result ≡ line_access bytes.now }
{
    let (thread, rest) = number_field(b' ', bytes)?;
    thread_access(thread, rest)
}

/// The access of the line that bytes begin with, which has this number, and what stands behind it.
pub fn next_access(threads: u32, number: u32, bytes: &[u8]) -> Result<(Access, &[u8]), RecordFault>
    ensures { access_seen result ≡ next_access threads number bytes.now }
{
    let Some((told, rest)) = line_access(bytes) else {
        return Err(RecordFault::Line(number));
    };
    if told.thread >= u64::from(threads) {
        return Err(RecordFault::Thread(number));
    }
    let access = Access {
        thread: told.thread as u32,
        deed: told.deed,
        place: told.place,
        value: told.value,
    };
    Ok((access, rest))
}
