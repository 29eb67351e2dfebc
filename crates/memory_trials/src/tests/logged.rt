//! Accesses of a thread, drawn by chance and logged with what memory answered.
ghost use Rattle.std.specs.Prelude.{◌≡◌, ◌<◌, ℕ};
ghost use Rattle.shared_memory.specs.Seen.{IsSingle};
ghost use Rattle.memory_trials.specs.inner.Tried.{MayLog};

use super::accesses::may;
use history::{Access, Deed};
use llsc_base::{Place, Size};
use shared_memory::SharedMemory;
use std::sync::Wait;

/// A place by its row, of the four of 32 bytes that threads access, and its number there, of six. All threads write the first
/// two of a row, double words, and one thread alone writes each of the last four, words of two cells.
pub(super) fn place_of(row: u32, k: u32) -> Place {
    let (at, size) = match k % 6 {
        0 => (0, Size::B8),
        1 => (8, Size::B8),
        2 => (16, Size::B4),
        3 => (20, Size::B4),
        4 => (24, Size::B4),
        _ => (28, Size::B4),
    };
    Place {
        addr: 0x2000 + row % 4 * 32 + at,
        size,
    }
}

/// The place that a thread alone writes. Threads 0 and 1 have words of one cell, and so on two by two; those of four threads
/// lie in two rows, and those of eight in four.
pub(super) fn own_place(thread: u32) -> Place {
    place_of(thread / 2 % 4, 2 + thread / 8 % 2 * 2 + thread % 2)
}

/// A thread on its way through its accesses.
#[derive(Drop)]
pub(super) struct Course {
    thread: u32,
    /// How many threads there are.
    threads: u32,
    /// The number that was drawn last.
    number: u32,
    /// How many accesses there were.
    count: u32,
    /// The place of a load-exclusive whose reservation the thread may hold.
    watched: Option<Place>,
}

impl Course {
    /// A thread, of so many, before its first access.
    pub(super) fn of(thread: u32, threads: u32) -> Course {
        Course {
            thread,
            threads,
            number: thread,
            count: 0,
            watched: None,
        }
    }

    /// The next access. A value that is stored is stored by no other access.
    pub(super) fn next(&mut self) -> Access {
        self.number = self
            .number
            .wrapping_mul(1_664_525)
            .wrapping_add(1_013_904_223);
        self.count = self.count.wrapping_add(1);
        let number = self.number >> 16;
        match self.watched {
            None => self.unreserved(number),
            Some(place) => self.reserved(number, place),
        }
    }

    /// An access, whose value is the next of the thread's own.
    fn access(&self, deed: Deed, place: Place) -> Access {
        Access {
            thread: self.thread,
            deed,
            place,
            value: u64::from(
                self.count
                    .wrapping_mul(self.threads)
                    .wrapping_sub(self.thread),
            ),
        }
    }

    /// A row where threads have places of their own.
    fn row(&self, number: u32) -> u32 {
        match self.threads {
            0..=2 => 0,
            3..=4 => number % 2,
            _ => number % 4,
        }
    }

    /// A place of such a row.
    fn any_place(&self, number: u32) -> Place {
        place_of(self.row(number), number / 4)
    }

    /// One that all threads write.
    fn shared_place(&self, number: u32) -> Place {
        place_of(self.row(number), number / 4 % 2)
    }

    /// The next access where no reservation is held: a store-exclusive is to fail.
    fn unreserved(&mut self, number: u32) -> Access {
        let place = self.shared_place(number / 8);
        match number % 8 {
            0 => self.access(Deed::Load, self.any_place(number / 8)),
            1 => self.access(Deed::Store, own_place(self.thread)),
            2 => self.access(Deed::StoreEx, place),
            _ => self.load_ex(place),
        }
    }

    /// The next access where a reservation may be held on the row of a place.
    fn reserved(&mut self, number: u32, place: Place) -> Access {
        let own = own_place(self.thread);
        match number % 8 {
            0 => self.given_up(Deed::Clear, Place::NOWHERE).with_value(0),
            1 => self.load_ex(self.shared_place(number / 8)),
            2 | 3 => self.access(Deed::Load, own),
            4 if own.row(2) == place.row(2) => self.given_up(Deed::Store, own),
            _ => self.given_up(Deed::StoreEx, place),
        }
    }

    /// An access that ends the reservation.
    fn given_up(&mut self, deed: Deed, place: Place) -> Access {
        self.watched = None;
        self.access(deed, place)
    }

    /// A load-exclusive, whose place is watched from now on.
    fn load_ex(&mut self, place: Place) -> Access {
        self.watched = Some(place);
        self.access(Deed::LoadEx, place)
    }
}

/// Makes an access that is tried, and gives it as it came about.
fn make<M: SharedMemory, R: Wait>(rt: &R, memory: &M, pass: &mut M::Pass, tried: Access) -> Access
    requires memory { M.home pass.old ≡ M.id memory.now }
    requires single { (t : ℕ) × IsSingle t (M.numbers pass.old) × (t < (M.origin memory.now).first) }
    requires size { (M.origin memory.now).size.mem ≡ 65536 }
    ensures memory { M.home pass.new ≡ M.home pass.old }
    ensures numbers { M.numbers pass.new ≡ M.numbers pass.old }
{
    let (place, value) = (tried.place, tried.value);
    if !may(place, value) {
        return tried;
    }
    match tried.deed {
        Deed::Load => tried.with_value(memory.load(pass, place)),
        Deed::LoadEx => tried.with_value(memory.load_ex(rt, pass, place)),
        Deed::Store => match memory.store(rt, pass, place, value) {
            Ok(()) => tried,
            Err(_) => tried.with_deed(Deed::StoreFail),
        },
        Deed::StoreEx => {
            if memory.store_ex(rt, pass, place, value) {
                return tried;
            }
            tried.with_deed(Deed::StoreFail)
        }
        Deed::StoreFail | Deed::Clear => {
            memory.clear_ex(pass);
            tried
        }
    }
}

/// Makes as many accesses of a pass's thread as the log is long, and logs each as it came about.
pub(super) fn log_accesses<M: SharedMemory, R: Wait>(
    rt: &R,
    memory: &M,
    logged: (Vec<Access>, M::Pass),
) -> (Vec<Access>, M::Pass)
    requires may { MayLog M.home M.numbers (M.id memory.now) (M.origin memory.now) logged.1 }
    requires size { (M.origin memory.now).size.mem ≡ 65536 }
    ensures memory { M.home result.1 ≡ M.home logged.1 }
    ensures numbers { M.numbers result.1 ≡ M.numbers logged.1 }
{
    let (mut log, mut pass) = logged;
    let mut course = Course::of(memory.thread(&pass), memory.first());
    for access in log.iter_mut() {
        let tried = course.next();
        *access = make(rt, memory, &mut pass, tried);
    }
    (log, pass)
}
