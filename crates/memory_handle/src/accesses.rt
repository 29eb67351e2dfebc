//! Accesses.
ghost use Rattle.std.specs.Prelude.{◌≡◌, ◌≢◌, ◌+◌, ◌^◌, ◌<◌, ◌≤◌, ◌⊎◌, [], IfOk, IfErr, IsTrue, MatchResult, Some, None, true, false};
ghost use Rattle.std.specs.Bool.{OnFalse, OnTrue};
ghost use Rattle.llsc_base.specs.Memory.{is_aligned, size_bytes};
ghost use Rattle.history.specs.Operation.{clear, entries_of_operation, load, load_missed, load_watched};
ghost use Rattle.history.specs.Started.{MayAct};
ghost use Rattle.shared_memory.specs.Seen.{IsSingle};
ghost use Rattle.version_memory.specs.Memory.{pass_numbers};
ghost use Rattle.memory_handle.specs.Accesses.{Adds, HasFailedEx, HasFoundSpent, HasMetWrite, HasStored, HasStoredEx, IsPlaceOf, Makes};
ghost use Rattle.memory_handle.specs.Faults.{IsRefused, access_fault, clear_fault, store_fault};
ghost use Rattle.memory_handle.specs.Handles.{AreAlike, handle_origin, handle_seen};

use crate::handles::Handle;
use crate::misuse::Misuse;
use crate::places::{fits, place_in};
use llsc_base::Place;
use shared_memory::SharedMemory;

impl Handle {
    /// Whether the handle has one thread.
    #[inline]
    fn one(&self) -> Result<(), Misuse>
        ensures single { IfOk result (λ _. IsSingle self.now.first (pass_numbers self.now.pass)) }
        ensures acts { IfOk result (λ _. MayAct (handle_origin self.now).first self.now.first (handle_seen self.now)) }
        ensures fault { MatchResult result (λ _. clear_fault self.now ≡ None) (λ misuse. clear_fault self.now ≡ Some misuse) }
    {
        if self.upto - self.first != 1 {
            return Err(Misuse::Several);
        }
        Ok(())
    }

    /// The place of an access by the handle's one thread.
    #[inline]
    fn place_of(&self, addr: u64, width: u32) -> Result<Place, Misuse>
        ensures place { IfOk result (λ place. IsPlaceOf addr width place) }
        ensures aligned { IfOk result (λ place. IsTrue (is_aligned place)) }
        ensures inside { IfOk result (λ place. place.addr + size_bytes place.size ≤ self.now.mem) }
        ensures single { IfOk result (λ _. IsSingle self.now.first (pass_numbers self.now.pass)) }
        ensures acts { IfOk result (λ _. MayAct (handle_origin self.now).first self.now.first (handle_seen self.now)) }
        ensures fault { MatchResult result (λ _. access_fault self.now addr width ≡ None) (λ misuse. access_fault self.now addr width ≡ Some misuse) }
    {
        self.one()?;
        place_in(self.mem, addr, width)
    }

    /// The place of a store of a value by it.
    #[inline]
    fn store_place(&self, addr: u64, width: u32, value: u64) -> Result<Place, Misuse>
        ensures place { IfOk result (λ place. IsPlaceOf addr width place) }
        ensures aligned { IfOk result (λ place. IsTrue (is_aligned place)) }
        ensures inside { IfOk result (λ place. place.addr + size_bytes place.size ≤ self.now.mem) }
        ensures fits { IfOk result (λ place. value < 256 ^ size_bytes place.size) }
        ensures single { IfOk result (λ _. IsSingle self.now.first (pass_numbers self.now.pass)) }
        ensures acts { IfOk result (λ _. MayAct (handle_origin self.now).first self.now.first (handle_seen self.now)) }
        ensures fault { MatchResult result (λ _. store_fault self.now addr width value ≡ None) (λ misuse. store_fault self.now addr width value ≡ Some misuse) }
    {
        let place = self.place_of(addr, width)?;
        if !fits(place, value) {
            return Err(Misuse::Value);
        }
        Ok(place)
    }

    /// A load: the value of so many bytes from an address up, the least significant byte at the address.
    ///
    /// # Errors
    ///
    /// The first that stands of [`Misuse::Several`], [`Misuse::Width`], [`Misuse::Outside`] and [`Misuse::Alignment`].
    #[inline]
    pub fn load(&mut self, addr: u64, width: u32) -> Result<u64, Misuse>
        ensures loaded { IfOk result (λ value. Makes addr width (λ place. load place value) self.old self.new) }
        ensures fits { IfOk result (λ value. value < 256 ^ width) }
        ensures fault { MatchResult result (λ _. access_fault self.old addr width ≡ None) (λ misuse. access_fault self.old addr width ≡ Some misuse) }
        ensures alike { AreAlike self.old self.new }
        ensures refused { IfErr result (λ _. self.new ≡ self.old) }
    {
        let place = self.place_of(addr, width)?;
        Ok(self.memory.load(&mut self.pass, place))
    }

    /// A store of a value below 256 to the `width`, which is tried once.
    ///
    /// # Errors
    ///
    /// The first that stands of [`Misuse::Several`], [`Misuse::Width`], [`Misuse::Outside`], [`Misuse::Alignment`] and
    /// [`Misuse::Value`]. Where none does, [`Misuse::Busy`] says that a write in the class of the place was in flight, and
    /// [`Misuse::Spent`] comes exactly where the class has had as many writes as the memory's limit, and none of them is in
    /// flight. Nothing is stored then.
    #[inline]
    pub fn store(&mut self, addr: u64, width: u32, value: u64) -> Result<(), Misuse>
        ensures stored { IfOk result (λ _. HasStored addr width value self.old self.new) }
        ensures fault { MatchResult result (λ _. store_fault self.old addr width value ≡ None)
            (λ misuse. (store_fault self.old addr width value ≡ Some misuse) ⊎ IsRefused self.old addr width value misuse) }
        ensures busy { IfErr result (λ misuse. misuse ≡ Misuse.Busy → HasMetWrite addr width self.old self.new) }
        ensures spent { IfErr result (λ misuse. misuse ≡ Misuse.Spent → HasFoundSpent addr width self.old self.new) }
        ensures alike { AreAlike self.old self.new }
        ensures refused { store_fault self.old addr width value ≢ None → self.new ≡ self.old }
    {
        let place = self.store_place(addr, width, value)?;
        match self.memory.store_now(&mut self.pass, place, value) {
            Ok(true) => Ok(()),
            Ok(false) => Err(Misuse::Busy),
            Err(_) => Err(Misuse::Spent),
        }
    }

    /// A load-exclusive: the value, and whether the thread holds a reservation on the place's row from now on. It does unless a
    /// write of another thread in the class of the row is in flight; then it holds none.
    ///
    /// # Errors
    ///
    /// As those of [`Handle::load`].
    #[inline]
    pub fn load_ex(&mut self, addr: u64, width: u32) -> Result<(u64, bool), Misuse>
        ensures reserved { IfOk result (λ got. OnTrue got.1 (Makes addr width (λ place. load_watched place got.0) self.old self.new)) }
        ensures missed { IfOk result (λ got. OnFalse got.1 (Makes addr width (λ place. load_missed place got.0) self.old self.new)) }
        ensures fits { IfOk result (λ got. got.0 < 256 ^ width) }
        ensures fault { MatchResult result (λ _. access_fault self.old addr width ≡ None) (λ misuse. access_fault self.old addr width ≡ Some misuse) }
        ensures alike { AreAlike self.old self.new }
        ensures refused { IfErr result (λ _. self.new ≡ self.old) }
    {
        let place = self.place_of(addr, width)?;
        Ok(self.memory.load_ex_now(&mut self.pass, place))
    }

    /// A store-exclusive of a value below 256 to the `width`, and whether it succeeded: exactly where the thread holds a
    /// reservation on the place's row, no write of any thread has begun in the row's class since, and the class may take another.
    /// The thread holds no reservation from now on.
    ///
    /// # Errors
    ///
    /// The first that stands of [`Misuse::Several`], [`Misuse::Width`], [`Misuse::Outside`], [`Misuse::Alignment`] and
    /// [`Misuse::Value`].
    #[inline]
    pub fn store_ex(&mut self, addr: u64, width: u32, value: u64) -> Result<bool, Misuse>
        ensures stored { IfOk result (λ done. OnTrue done (HasStoredEx addr width value self.old self.new)) }
        ensures failed { IfOk result (λ done. OnFalse done (HasFailedEx addr width value self.old self.new)) }
        ensures fault { MatchResult result (λ _. store_fault self.old addr width value ≡ None) (λ misuse. store_fault self.old addr width value ≡ Some misuse) }
        ensures alike { AreAlike self.old self.new }
        ensures refused { IfErr result (λ _. self.new ≡ self.old) }
    {
        let place = self.store_place(addr, width, value)?;
        Ok(self.memory.store_ex_now(&mut self.pass, place, value))
    }

    /// CLREX: the thread holds no reservation from now on.
    ///
    /// # Errors
    ///
    /// [`Misuse::Several`].
    #[inline]
    pub fn clear_ex(&mut self) -> Result<(), Misuse>
        ensures cleared { IfOk result (λ _. Adds (entries_of_operation self.old.first clear) self.old self.new) }
        ensures fault { MatchResult result (λ _. clear_fault self.old ≡ None) (λ misuse. clear_fault self.old ≡ Some misuse) }
        ensures alike { AreAlike self.old self.new }
        ensures refused { IfErr result (λ _. self.new ≡ self.old) }
    {
        self.one()?;
        self.memory.clear_ex(&mut self.pass);
        Ok(())
    }
}
