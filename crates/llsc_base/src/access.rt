//! The place of an access, its size, and what stands against it.
ghost use Rattle.std.specs.Prelude.{◌≡◌, ◌==◌, ◌%◌, ◌≤◌};
ghost use Rattle.llsc_base.specs.Effects.{barred};
ghost use Rattle.llsc_base.specs.Memory.{cell_of, is_aligned, row_of, size_bytes};

use crate::outside::Stop;

/// How many bytes an access has.
#[derive(Clone, Copy, Debug, PartialEq, Eq)]
pub enum Size {
    B1,
    B2,
    B4,
    B8,
}

impl Size {
    /// The number of bytes: 1, 2, 4 or 8.
    #[inline(always)]
    pub fn bytes(self) -> u32
        ensures { result ≡ size_bytes self }
    {
        match self {
            Size::B1 => 1,
            Size::B2 => 2,
            Size::B4 => 4,
            Size::B8 => 8,
        }
    }
}

/// The bytes that an access names: as many as its size says, from an address up.
#[derive(Clone, Copy, Debug, PartialEq, Eq)]
pub struct Place {
    pub addr: u32,
    pub size: Size,
}

impl Place {
    /// The place of an access that has none, as a CLREX: one byte at address 0.
    pub const NOWHERE: Place = Place {
        addr: 0,
        size: Size::B1,
    };

    /// Whether the address is a multiple of the size.
    #[inline(always)]
    pub fn is_aligned(self) -> bool
        ensures { result ≡ is_aligned self }
    {
        match self.size {
            Size::B1 => true,
            Size::B2 => self.addr % 2 == 0,
            Size::B4 => self.addr % 4 == 0,
            Size::B8 => self.addr % 8 == 0,
        }
    }

    /// The number of its cell, the aligned eight bytes in which it lies.
    #[inline]
    #[tactic(auto, unfolding(crate::specs::Memory::cell_of))]
    pub fn cell(self) -> u32
        ensures { result ≡ cell_of self }
    {
        self.addr / 8
    }

    /// The number of its row, the granule on which a monitor marks it (DDI 0406C A3.4.3), which has `8 * 2^granule` bytes.
    /// The number of the granule is 0 to 8.
    #[inline]
    #[tactic(auto, unfolding(crate::specs::Memory::row_of))]
    pub fn row(self, granule: u32) -> u32
        requires { granule ≤ 8 }
        ensures { result ≡ row_of granule self }
    {
        self.addr >> (3 + granule)
    }
}

/// What stands against an access.
#[derive(Clone, Copy, Debug, PartialEq, Eq)]
pub enum Bar {
    /// The address is no multiple of the size.
    Alignment,
    /// The place reaches past the end of memory.
    Outside,
    /// A store, and a byte of the place lies in a span that isn't written.
    ReadOnly,
}

impl Bar {
    /// The stop of a thread whose access at this address it stands against.
    pub fn stop_at(self, addr: u32) -> Stop
        ensures { result ≡ barred self addr }
    {
        match self {
            Bar::Alignment => Stop::Alignment(addr),
            Bar::Outside => Stop::Outside(addr),
            Bar::ReadOnly => Stop::ReadOnly(addr),
        }
    }
}

/// A word that may not be accessed, and what stands against it.
#[derive(Clone, Copy, Debug, PartialEq, Eq)]
pub struct BarredWord {
    pub addr: u32,
    pub bar: Bar,
}
