//! Where the accesses of a record stand in the runs of their threads.
ghost use Rattle.std.specs.Prelude.{◌≡◌, ◌%◌, ◌++◌, ◌∷◌, [], All, List, OnOk, IfOk};
ghost use Rattle.run_checker.specs.declared.sightings.Sighting.{Sighting as SightingSpec};

use std::alloc::{AllocError, Global};
use std::marker::Model;

/// Where an access of a record stands in the run of its thread.
#[derive(Clone, Copy, Debug, PartialEq, Eq)]
pub struct Sighting {
    /// The address of the instruction that makes it.
    pub pc: u32,
    /// How many steps its thread has made before that instruction.
    pub steps: u64,
    /// Of a store-exclusive that failed the value that memory has at its place, and of any other access 0.
    pub held: u64,
}

/// Who is told of each access of a record, in order, where it stands.
pub trait Watch {
    /// Whether these are the sightings of which it was told.
    ghost told: { Self → List SightingSpec → Type 0 };

    /// Takes in the sighting of one access more, whose PC is a multiple of 4.
    fn see(&mut self, sighting: Sighting) -> Result<(), AllocError>
        requires { sighting.pc % 4 ≡ 0 }
        ensures { OnOk result ((seen : List SightingSpec) → told self.old seen → told self.new (seen ++ sighting ∷ [])) };
}

/// Whoever wants to know nothing.
#[derive(Drop)]
pub(crate) struct Nobody;

impl Watch for Nobody {
    ghost use Rattle.std.specs.Prelude.{List};
    ghost use Rattle.run_checker.specs.declared.sightings.Sighting.{Sighting as Seen};

    ghost told = { λ nobody seen. Unit {0} };

    #[inline(always)]
    fn see(&mut self, _sighting: Sighting) -> Result<(), AllocError> {
        Ok(())
    }
}

/// The sightings of accesses, in order. Each PC is a multiple of 4.
#[derive(Drop)]
pub struct Sightings {
    items: Vec<Sighting>,
}

impl Model for Sightings {
    ghost use Rattle.std.specs.Prelude.{◌≡◌, ◌%◌, All, List};
    ghost use Rattle.run_checker.specs.declared.sightings.Sighting.{Sighting as Seen};

    ghost Value = { List Seen };

    ghost view = { λ s. s.items.items };

    ghost invariant = { λ s. All (λ sighting. sighting.pc % 4 ≡ 0) s.items.items };
}

impl Sightings {
    /// No sightings, with room for so many.
    ///
    /// # Errors
    ///
    /// `AllocError` is want of memory.
    pub fn new(alloc: Global, room: usize) -> Result<Sightings, AllocError>
        ensures { IfOk result (λ sightings. sightings ≡ []) }
    {
        Ok(Sightings {
            items: Vec::with_capacity(alloc, room)?,
        })
    }

    /// The sightings.
    #[inline]
    pub fn as_slice(&self) -> &[Sighting]
        ensures sightings { result.now ≡ self.now }
        ensures aligned { All (λ sighting. sighting.pc % 4 ≡ 0) result.now }
    {
        self.items.as_slice()
    }
}

impl Watch for Sightings {
    ghost use Rattle.std.specs.Prelude.{◌≡◌};

    ghost told = { λ sightings seen. sightings ≡ seen };

    #[inline]
    fn see(&mut self, sighting: Sighting) -> Result<(), AllocError> {
        self.items.push(sighting)?;
        Ok(())
    }
}
