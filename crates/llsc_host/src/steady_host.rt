//! A host that never fails: one file for every name, and space for output that is reserved whole.
ghost use Rattle.std.specs.Prelude.{◌≡◌, ◌≤◌, [], IfOk, Some, length, is_ok, true};
ghost use Rattle.std.specs.Option.{option_copied};
ghost use Rattle.llsc_host.specs.MemoryHost.{IsReadAnswer, bytes_within};
ghost use Rattle.llsc_host.specs.SteadyHost.{after_write, written_of};

use crate::host::{Failed, Host, ReadFault};
use crate::memory_host::copy_within;
use std::alloc::{AllocError, Global};
use std::marker::Model;

/// A host that gives the same file for every name, and whose writes all go through. It keeps what is written as far as its space
/// goes, and counts what comes past that; from then on it doesn't tell what was written.
#[derive(Drop)]
pub struct SteadyHost {
    file: Vec<u8>,
    space: usize,
    kept: Vec<u8>,
    past: u64,
}

impl Model for SteadyHost {
    ghost use Rattle.llsc_host.specs.SteadyHost.{Steady};

    ghost Value = { Steady };

    ghost use Rattle.llsc_host.specs.SteadyHostInside.{IsReserved};
    ghost use Rattle.llsc_host.specs.inner.SteadyHostInside.{steady_of};

    ghost view = { steady_of };

    ghost invariant = { IsReserved };
}

impl SteadyHost {
    /// A host with this file, and room for `space` bytes of output.
    pub fn new(alloc: Global, file: Vec<u8>, space: u32) -> Result<SteadyHost, AllocError>
        ensures { IfOk result (λ host. host ≡ record {
          file = file.items;
          space = space;
          kept = [];
          past = 0;
        }) }
    {
        let space = space as usize;
        Ok(SteadyHost {
            file,
            space,
            kept: Vec::with_capacity(alloc, space)?,
            past: 0,
        })
    }

    /// What was written so far, where all of it was kept.
    pub fn written(&self) -> Option<&[u8]>
        ensures { option_copied result ≡ written_of self.now }
    {
        if self.past > 0 {
            return None;
        }
        Some(self.kept.as_slice())
    }

    /// How many bytes came past the space. It stays at 2^64 - 1 once it is there.
    pub fn past(&self) -> u64
        ensures { result ≡ self.now.past }
    {
        self.past
    }
}

impl Host for SteadyHost {
    ghost use Rattle.std.specs.Prelude.{[], Some};
    ghost use Rattle.llsc_host.specs.SteadyHost.{written_of};

    ghost file = { λ held name. Some held.file };

    ghost written = { λ held. written_of held };

    ghost read_faults = { λ held. 0 };

    ghost write_faults = { λ held. 0 };

    ghost lost = { λ held. [] };

    /// The file is there by every name.
    fn read_file(&mut self, alloc: Global, _name: String, most: usize) -> Result<Vec<u8>, ReadFault>
        ensures answer { IsReadAnswer (bytes_within most (Some self.old.file)) result }
        ensures state { self.new ≡ self.old }
    {
        copy_within(alloc, self.file.as_slice(), most)
    }

    /// A write goes through, also where not all of it is kept.
    #[tactic(auto, using(crate::proofs::Steadiness::adds))]
    fn write(&mut self, bytes: &[u8]) -> Result<(), Failed>
        ensures answer { is_ok result ≡ true }
        ensures state { self.new ≡ after_write self.old bytes.now }
    {
        let room = self.space - self.kept.len();
        let fitting = bytes.len().min(room);
        self.kept.extend_from_slice(&bytes[..fitting]).unwrap();
        let more = (bytes.len() - fitting) as u64;
        self.past = self.past.saturating_add(more);
        Ok(())
    }
}
