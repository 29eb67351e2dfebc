//! The reservations of threads, as their logs tell them.
ghost use Rattle.std.specs.Prelude.{◌≡◌, ◌<◌, IfOk, None, length, replicate, slice_set};
ghost use Rattle.run_merge.specs.inner.Reservations.{fails, held_behind, held_by, is_early, on_row_of};

use crate::logs::Stamped;
use crate::merging::class_of;
use history::Deed;
use llsc_base::MachineSize;
use std::alloc::{AllocError, Global};

/// The reservation of each thread: its last load-exclusive, unless it has made a store-exclusive or a CLREX since.
#[derive(Drop)]
pub(crate) struct Reservations {
    pub(crate) loads: Vec<Option<Stamped>>,
}

/// Whether it is a store-exclusive that failed.
fn is_failure(deed: Deed) -> bool
    ensures { result ≡ fails deed }
{
    match deed {
        Deed::StoreFail => true,
        _ => false,
    }
}

impl Reservations {
    /// Those of so many threads that have made no access.
    pub(crate) fn new(alloc: Global, threads: usize) -> Result<Reservations, AllocError>
        ensures { IfOk result (λ none. none.loads.items ≡ replicate threads None) }
    {
        let loads = vec![in alloc; None; threads]?;
        Ok(Reservations { loads })
    }

    /// The load-exclusive by which a thread holds the row of an access.
    fn on_row_of(&self, size: &MachineSize, t: usize, one: &Stamped) -> Option<Stamped>
        requires known { t < length self.now.loads.items }
        ensures { result ≡ on_row_of size.now one.now (held_by self.now.loads.items t) }
    {
        let load = self.loads.as_slice()[t]?;
        let granule = size.granule();
        if load.access.place.row(granule) != one.access.place.row(granule) {
            return None;
        }
        Some(load)
    }

    /// Whether an access of a thread is a failed store-exclusive, and its reservation of the row is kept: its class has had no write since.
    /// `writes` says how many each class has had.
    pub(crate) fn is_early(
        &self,
        size: &MachineSize,
        writes: &[u64],
        t: usize,
        one: &Stamped,
    ) -> bool
        requires known { t < length self.now.loads.items }
        requires writes { length writes.now ≡ size.now.classes }
        ensures { result ≡ is_early size.now writes.now one.now (held_by self.now.loads.items t) }
    {
        if !is_failure(one.access.deed) {
            return false;
        }
        let Some(load) = self.on_row_of(size, t, one) else {
            return false;
        };
        writes[class_of(size, &load)] <= load.stamp
    }

    /// The reservations once a thread has made an access.
    pub(crate) fn note(&mut self, t: usize, one: &Stamped)
        requires known { t < length self.old.loads.items }
        ensures { self.new.loads.items ≡ slice_set self.old.loads.items t (held_behind one.now.access.deed one.now (held_by self.old.loads.items t)) }
    {
        match one.access.deed {
            Deed::LoadEx => self.loads[t] = Some(*one),
            Deed::StoreEx | Deed::StoreFail | Deed::Clear => self.loads[t] = None,
            Deed::Load | Deed::Store => {}
        }
    }
}
