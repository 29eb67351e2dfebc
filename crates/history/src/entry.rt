//! The entries of a history, and accesses as records keep them.
ghost use Rattle.std.specs.Prelude.{◌≡◌};

use llsc_base::Place;

/// Why a store-exclusive failed.
#[derive(Clone, Copy, Debug, PartialEq, Eq)]
pub enum Cause {
    /// Its thread held no reservation on the row.
    Absent,
    /// A write of another thread in the class, or its load-exclusive with a reservation, has begun since the
    /// reservation.
    Lost,
    /// The class has had as many writes as it may have.
    Limit,
}

/// One event of a history of shared memory.
///
/// `Read`, `Write`, `Fail` and `Clear` are accesses, and the others marks: they say when an operation began, or
/// that it is over, or that a thread is started.
#[derive(Clone, Copy, Debug, PartialEq, Eq)]
pub enum Entry {
    /// A load, or a load-exclusive, took this value.
    Read {
        thread: u32,
        place: Place,
        value: u64,
        ex: bool,
    },
    /// A store, or a store-exclusive that succeeded, set this value.
    Write {
        thread: u32,
        place: Place,
        value: u64,
        ex: bool,
    },
    /// A store-exclusive of this value failed.
    Fail {
        thread: u32,
        place: Place,
        value: u64,
        cause: Cause,
    },
    /// CLREX.
    Clear {
        thread: u32,
    },
    /// A load-exclusive has begun, with a reservation.
    Watch {
        thread: u32,
        place: Place,
    },
    /// A load-exclusive has begun, without a reservation.
    Miss {
        thread: u32,
        place: Place,
    },
    /// A write has begun.
    Begin {
        thread: u32,
        place: Place,
    },
    /// A write is over.
    End {
        thread: u32,
        place: Place,
    },
    /// A thread is started, and begins at an address with an argument.
    Start {
        thread: u32,
        child: u32,
        entry: u32,
        arg: u32,
    },
}

/// What an access did, as one that is over is told: the access that was asked for (`Ask` of `llsc_base`), with its outcome.
#[derive(Clone, Copy, Debug, PartialEq, Eq)]
pub enum Deed {
    Load,
    LoadEx,
    Store,
    /// A store-exclusive that succeeded.
    StoreEx,
    /// A store-exclusive that failed.
    StoreFail,
    Clear,
}

/// An access as a record keeps it.
///
/// A `Clear` has the place of one byte at address 0, and the value 0.
#[derive(Clone, Copy, Debug, PartialEq, Eq)]
pub struct Access {
    pub thread: u32,
    pub deed: Deed,
    pub place: Place,
    pub value: u64,
}

impl Access {
    /// The access with another deed.
    #[inline(always)]
    pub fn with_deed(self, deed: Deed) -> Access
        ensures { result ≡ record self { deed = deed } }
    {
        Access { deed, ..self }
    }

    /// The access with another value.
    #[inline(always)]
    pub fn with_value(self, value: u64) -> Access
        ensures { result ≡ record self { value = value } }
    {
        Access { value, ..self }
    }
}
