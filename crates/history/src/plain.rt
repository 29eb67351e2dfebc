//! Memory and Arm's exclusive monitors for one host thread.
ghost use Rattle.std.specs.Prelude.{◌≡◌, ◌≢◌, ◌+◌, ◌^◌, ◌%◌, ◌<◌, ◌≤◌, ◌↔◌, ◌++◌, IfOk, IsTrue, drop, false, length, map, take, true};
ghost use Rattle.std.specs.Bool.{OnFalse, OnTrue};
ghost use Rattle.llsc_base.specs.Memory.{bytes_of, is_aligned, row_of, size_bytes, stored, value_at};
ghost use Rattle.history.specs.Accesses.{entry_of};
ghost use Rattle.history.specs.ArmLegal.{MayAccess};
ghost use Rattle.history.specs.Made.{made};
ghost use Rattle.history.specs.Monitor.{IsAsLarge, accessed, at_rest, at_rest_by, is_on, is_some_marked, marked_row, unless_on};
ghost use Rattle.history.specs.declared.entry.Cause.{Cause};

use crate::entry::{Access, Deed, Entry};
use llsc_base::{MachineSize, Place, Size};
use std::alloc::{AllocError, Global};
use std::marker::Model;

/// Memory as bytes, and for each thread the row on which it is marked (DDI 0406C A3.4.1, A3.4.2), a row of `8 * 2^granule`
/// bytes.
///
/// Each call is one access. It has no classes and no limit, and a store-exclusive fails only where its thread
/// isn't marked on the row.
///
/// ```
/// let word = Place { addr: 8, size: Size::B4 };
/// let mut memory = PlainMemory::new(alloc, &[0; 16], 2)?;
/// let value = memory.load_ex(0, word);
/// memory.store(1, word, 7);
/// memory.store(1, word, value);
/// let stored = memory.store_ex(0, word, value + 1); // false, though the word has its value again
/// ```
#[derive(Drop)]
pub struct PlainMemory {
    bytes: Vec<u8>,
    marks: Vec<Option<u32>>,
    granule: u32,
    /// Whether some thread may be marked: none is where this isn't set.
    may_be_marked: bool,
}

impl Model for PlainMemory {
    ghost use Rattle.std.specs.Prelude.{◌≡◌, ◌≤◌, false};
    ghost use Rattle.history.specs.Monitor.{Monitor, is_some_marked};

    ghost Value = { Monitor };

    ghost view = { λ m. record { memory = m.bytes.items; marks = m.marks.items; granule = m.granule } };

    ghost invariant = { λ m. (m.granule ≤ 8) × (m.may_be_marked ≡ false → is_some_marked m.marks.items ≡ false) };
}

impl PlainMemory {
    /// Memory of these bytes, a multiple of 8 of them, for 1 to 16 threads, none of them marked, with rows of eight bytes.
    ///
    /// # Errors
    ///
    /// `AllocError` is want of memory.
    #[tactic(auto, using(crate::proofs::Unmarked::replicate_unmarked))]
    pub fn new(alloc: Global, bytes: &[u8], threads: u32) -> Result<PlainMemory, AllocError>
        requires whole { length bytes.now % 8 ≡ 0 }
        requires some { 1 ≤ threads }
        requires most { threads ≤ 16 }
        ensures { IfOk result (λ memory. memory ≡ at_rest bytes.now threads) }
    {
        Ok(PlainMemory {
            bytes: bytes.to_vec(alloc)?,
            marks: vec![in alloc; None; threads as usize]?,
            granule: 0,
            may_be_marked: false,
        })
    }

    /// Memory of these bytes, as many as the machine has, for its threads and with rows of its granule, no thread marked.
    ///
    /// # Errors
    ///
    /// `AllocError` is want of memory.
    pub fn sized(alloc: Global, bytes: &[u8], size: &MachineSize) -> Result<PlainMemory, AllocError>
        requires { length bytes.now ≡ size.now.mem }
        ensures { IfOk result (λ memory. memory ≡ at_rest_by size.now.granule bytes.now size.now.threads) }
    {
        let mem = size.mem();
        prove!(mem % 8 == 0);
        Ok(PlainMemory {
            granule: size.granule(),
            ..PlainMemory::new(alloc, bytes, size.threads())?
        })
    }

    /// A load: the value of the place, which is aligned and lies in memory, here as below.
    #[inline]
    pub fn load(&self, place: Place) -> u64
        requires aligned { IsTrue (is_aligned place) }
        requires inside { place.addr + size_bytes place.size ≤ length self.now.memory }
        ensures value { result ≡ value_at self.now.memory place }
        ensures fits { result < 256 ^ size_bytes place.size }
    {
        llsc_base::load(&self.bytes, place)
    }

    /// A store of a thread, of a value below 2 to the 8, 16, 32 or 64 by the place's size. It ends each mark on the row of
    /// the place, whosever it is.
    #[inline(always)]
    pub fn store(&mut self, t: u32, place: Place, value: u64)
        requires thread { t < length self.old.marks }
        requires aligned { IsTrue (is_aligned place) }
        requires inside { place.addr + size_bytes place.size ≤ length self.old.memory }
        requires fits { value < 256 ^ size_bytes place.size }
        ensures stored { self.new ≡ accessed self.old (Entry.Write t place value false) }
        ensures size { IsAsLarge self.old self.new }
    {
        set(&mut self.bytes, place, value);
        if self.may_be_marked {
            self.may_be_marked = end_marks(&mut self.marks, place.row(self.granule));
        }
    }

    /// A load-exclusive of a thread: the value of the place, on whose row the thread is marked from now on.
    #[inline]
    pub fn load_ex(&mut self, t: u32, place: Place) -> u64
        requires thread { t < length self.old.marks }
        requires aligned { IsTrue (is_aligned place) }
        requires inside { place.addr + size_bytes place.size ≤ length self.old.memory }
        ensures value { result ≡ value_at self.old.memory place }
        ensures fits { result < 256 ^ size_bytes place.size }
        ensures marked { self.new ≡ accessed self.old (Entry.Read t place result true) }
        ensures size { IsAsLarge self.old self.new }
    {
        self.may_be_marked = true;
        self.marks[t as usize] = Some(place.row(self.granule));
        self.load(place)
    }

    /// A store-exclusive of a thread, and whether it succeeded: exactly where the thread is marked on the row of the
    /// place. One that succeeded ends each mark on the row; one that failed stores nothing. Either ends the thread's own
    /// mark.
    #[inline]
    pub fn store_ex(&mut self, t: u32, place: Place, value: u64) -> bool
        requires thread { t < length self.old.marks }
        requires aligned { IsTrue (is_aligned place) }
        requires inside { place.addr + size_bytes place.size ≤ length self.old.memory }
        requires fits { value < 256 ^ size_bytes place.size }
        ensures marked { IsTrue result ↔ (marked_row self.old t ≡ Some (row_of self.old.granule place)) }
        ensures stored { OnTrue result (self.new ≡ accessed self.old (Entry.Write t place value true)) }
        ensures failed { OnFalse result ((cause : Cause) → self.new ≡ accessed self.old (Entry.Fail t place value cause)) }
        ensures size { IsAsLarge self.old self.new }
    {
        let row = place.row(self.granule);
        let mark = self.marks[t as usize].take();
        if !is_marked_on(mark, row) {
            return false;
        }
        set(&mut self.bytes, place, value);
        self.may_be_marked = end_marks(&mut self.marks, row);
        true
    }

    /// CLREX of a thread: it is marked on no row.
    #[inline]
    pub fn clear_ex(&mut self, t: u32)
        requires thread { t < length self.old.marks }
        ensures cleared { self.new ≡ accessed self.old (Entry.Clear t) }
        ensures size { IsAsLarge self.old self.new }
    {
        self.marks[t as usize] = None;
    }

    /// Makes an access that is tried, and gives it as it came about: a load with the value of its place, whatever value it is
    /// tried with, and a store-exclusive as failed where its thread isn't marked on the row. One that is to fail fails.
    ///
    /// The thread is one of memory's; the place is aligned and lies in memory, and the value fits it, but for a CLREX, whose
    /// place is of no account.
    #[inline(always)]
    pub fn make(&mut self, tried: Access) -> Access
        requires thread { tried.thread < length self.old.marks }
        requires aligned { tried.deed ≢ Deed.Clear → IsTrue (is_aligned tried.place) }
        requires inside { tried.deed ≢ Deed.Clear → tried.place.addr + size_bytes tried.place.size ≤ length self.old.memory }
        requires fits { tried.deed ≢ Deed.Clear → tried.value < 256 ^ size_bytes tried.place.size }
        ensures made { result ≡ made self.old tried }
        ensures moved { self.new ≡ accessed self.old (entry_of result) }
        ensures may { MayAccess self.old (entry_of result) }
        ensures size { IsAsLarge self.old self.new }
    {
        let (t, place, value) = (tried.thread, tried.place, tried.value);
        match tried.deed {
            Deed::Load => tried.with_value(self.load(place)),
            Deed::LoadEx => tried.with_value(self.load_ex(t, place)),
            Deed::Store => {
                self.store(t, place, value);
                tried
            }
            Deed::StoreEx => self.make_store_ex(tried),
            Deed::StoreFail | Deed::Clear => {
                self.clear_ex(t);
                tried
            }
        }
    }

    /// Makes a store-exclusive: it stores just where its thread is marked on the row.
    #[inline(always)]
    #[tactic(auto, using(crate::proofs::Exclusives::on_marked, crate::proofs::Exclusives::off_unmarked))]
    fn make_store_ex(&mut self, tried: Access) -> Access
        requires exclusive { tried.deed ≡ Deed.StoreEx }
        requires thread { tried.thread < length self.old.marks }
        requires aligned { IsTrue (is_aligned tried.place) }
        requires inside { tried.place.addr + size_bytes tried.place.size ≤ length self.old.memory }
        requires fits { tried.value < 256 ^ size_bytes tried.place.size }
        ensures made { result ≡ made self.old tried }
        ensures moved { self.new ≡ accessed self.old (entry_of result) }
        ensures may { MayAccess self.old (entry_of result) }
        ensures size { IsAsLarge self.old self.new }
    {
        if self.store_ex(tried.thread, tried.place, tried.value) {
            return tried;
        }
        tried.with_deed(Deed::StoreFail)
    }
}

/// Sets a place of memory to a value, its least significant byte first.
///
/// Of bytes that are set one by one the compiler makes one store. A copy of a slice would test first whether the two overlap.
#[inline(always)]
fn set(bytes: &mut [u8], place: Place, value: u64)
    requires inside { place.addr + size_bytes place.size ≤ length bytes.old }
    requires fits { value < 256 ^ size_bytes place.size }
    ensures { bytes.new ≡ stored bytes.old place value }
{
    let at = place.addr as usize;
    match place.size {
        Size::B1 => bytes[at] = value as u8,
        Size::B2 => set_2(bytes, at, value as u16),
        Size::B4 => set_4(bytes, at, value as u32),
        Size::B8 => set_8(bytes, at, value),
    }
}

/// Sets two bytes.
#[inline(always)]
fn set_2(bytes: &mut [u8], at: usize, value: u16)
    requires { at + 2 ≤ length bytes.old }
    ensures { bytes.new ≡ take at bytes.old ++ bytes_of 2 value ++ drop (at + 2) bytes.old }
{
    let from = value.to_le_bytes();
    bytes[at] = from[0];
    bytes[at + 1] = from[1];
}

/// Sets four bytes.
#[inline(always)]
fn set_4(bytes: &mut [u8], at: usize, value: u32)
    requires { at + 4 ≤ length bytes.old }
    ensures { bytes.new ≡ take at bytes.old ++ bytes_of 4 value ++ drop (at + 4) bytes.old }
{
    let from = value.to_le_bytes();
    bytes[at] = from[0];
    bytes[at + 1] = from[1];
    bytes[at + 2] = from[2];
    bytes[at + 3] = from[3];
}

/// Sets eight bytes.
#[inline(always)]
fn set_8(bytes: &mut [u8], at: usize, value: u64)
    requires { at + 8 ≤ length bytes.old }
    ensures { bytes.new ≡ take at bytes.old ++ bytes_of 8 value ++ drop (at + 8) bytes.old }
{
    let from = value.to_le_bytes();
    bytes[at] = from[0];
    bytes[at + 1] = from[1];
    bytes[at + 2] = from[2];
    bytes[at + 3] = from[3];
    bytes[at + 4] = from[4];
    bytes[at + 5] = from[5];
    bytes[at + 6] = from[6];
    bytes[at + 7] = from[7];
}

/// Ends the marks on a row, and gives whether some mark is left.
#[inline(never)]
fn end_marks(marks: &mut [Option<u32>], row: u32) -> bool
    ensures ended { marks.new ≡ map (unless_on row) marks.old }
    ensures left { result ≡ is_some_marked marks.new }
{
    unmark(marks, row);
    marks.iter().any(|mark| mark.is_some())
}

/// Ends the marks on a row.
#[inline]
fn unmark(marks: &mut [Option<u32>], row: u32)
    ensures { marks.new ≡ map (unless_on row) marks.old }
{
    for mark in marks.iter_mut() {
        *mark = unless_on(*mark, row);
    }
}

/// A mark, unless it is on a row.
#[inline]
fn unless_on(mark: Option<u32>, row: u32) -> Option<u32>
    ensures { result ≡ unless_on row mark }
{
    if is_marked_on(mark, row) { None } else { mark }
}

/// Whether a mark is on a row.
#[inline]
fn is_marked_on(mark: Option<u32>, row: u32) -> bool
    ensures { result ≡ is_on row mark }
{
    match mark {
        Some(marked) => marked == row,
        None => false,
    }
}
