//! Handles of several threads are split, and put together again.
ghost use Rattle.std.specs.Prelude.{◌≡◌, ◌+◌, ◌==◌, ◌⊎◌, true, false, IfOk, IfErr, MatchResult, Some, None};
ghost use Rattle.std.specs.Arc.{arc_value};
ghost use Rattle.shared_memory.specs.Seen.{IsFront, longer};
ghost use Rattle.memory_handle.specs.Faults.{split_fault};
ghost use Rattle.memory_handle.specs.Handles.{IsUnused, SaysAllOfThreads, handle_seen};

use crate::handles::Handle;
use crate::misuse::Misuse;
use shared_memory::SharedMemory;
use std::alloc::Global;
use std::sync::Arc;
use version_memory::VersionMemory;

impl Handle {
    /// Another owner of the memory.
    fn share(&self) -> Result<Arc<VersionMemory, Global>, Misuse>
        ensures same { IfOk result (λ memory. arc_value memory ≡ arc_value self.now.memory) }
        ensures none { IfErr result (λ misuse. misuse ≡ Misuse.NoMemory) }
    {
        Arc::try_clone(&self.memory).map_err(|_| Misuse::NoMemory)
    }

    /// A handle of the last of several threads. The others stay.
    ///
    /// # Errors
    ///
    /// [`Misuse::One`] where there is one thread, else [`Misuse::Used`] where threads were taken in by [`Handle::join`], and
    /// [`Misuse::NoMemory`] where the memory can't have another owner.
    pub fn split(&mut self) -> Result<Handle, Misuse>
        ensures same { IfOk result (λ other. (arc_value other.memory ≡ arc_value self.old.memory) × (arc_value self.new.memory ≡ arc_value self.old.memory)) }
        ensures last { IfOk result (λ other. (other.first + 1 ≡ self.old.upto) × (other.upto ≡ self.old.upto)) }
        ensures rest { IfOk result (λ other. (self.new.first ≡ self.old.first) × (self.new.upto ≡ other.first)) }
        ensures seen { IfOk result (λ other. (handle_seen other ≡ handle_seen self.old) × (handle_seen self.new ≡ handle_seen self.old)) }
        ensures fresh { IfOk result (λ other. (other.fresh ≡ true) × (self.new.fresh ≡ true)) }
        ensures unused { IfOk result (λ other. IsUnused other × IsUnused self.new) }
        ensures fault { MatchResult result (λ _. split_fault self.old ≡ None)
            (λ misuse. (split_fault self.old ≡ Some misuse) ⊎ ((split_fault self.old ≡ None) × (misuse ≡ Misuse.NoMemory))) }
        ensures refused { IfErr result (λ _. self.new ≡ self.old) }
    {
        if self.upto - self.first == 1 {
            return Err(Misuse::One);
        }
        if !self.fresh {
            return Err(Misuse::Used);
        }
        let memory = self.share()?;
        let last = self.upto - 1;
        let pass = self.memory.split(&mut self.pass, last);
        let upto = self.upto;
        self.upto = last;
        Ok(Handle {
            memory,
            pass,
            first: last,
            upto,
            mem: self.mem,
            fresh: true,
        })
    }

    /// Whether another handle's threads come next behind the last.
    #[inline]
    pub fn is_next(&self, other: &Handle) -> bool
        ensures { result ≡ (self.now.upto == other.now.first) }
    {
        self.upto == other.first
    }

    /// Takes in the threads of another handle of the same memory, which come next behind the last (see [`Handle::is_next`]).
    /// Of what the two have seen the one is a front of the other, and the longer is kept; it says of each one's threads all
    /// that it had seen of them.
    pub fn join(&mut self, other: Handle)
        requires memory { arc_value other.memory ≡ arc_value self.old.memory }
        requires next { self.old.upto ≡ other.first }
        ensures memory { arc_value self.new.memory ≡ arc_value self.old.memory }
        ensures numbers { (self.new.first ≡ self.old.first) × (self.new.upto ≡ other.upto) }
        ensures seen { handle_seen self.new ≡ longer (handle_seen self.old) (handle_seen other) }
        ensures fronts { IsFront (handle_seen self.old) (handle_seen self.new) × IsFront (handle_seen other) (handle_seen self.new) }
        ensures mine { SaysAllOfThreads self.new self.old }
        ensures yours { SaysAllOfThreads self.new other }
        ensures used { self.new.fresh ≡ false }
    {
        let Handle {
            memory,
            pass,
            first: _,
            upto,
            mem: _,
            fresh: _,
        } = other;
        drop(memory);
        self.memory.join(&mut self.pass, pass);
        self.upto = upto;
        self.fresh = false;
    }

    /// Takes the thread back that [`Handle::split`] gave, where neither it nor the others have made an access since. Then it may
    /// be split off again.
    pub fn put_back(&mut self, last: Handle)
        requires memory { arc_value last.memory ≡ arc_value self.old.memory }
        requires next { self.old.upto ≡ last.first }
        requires unused { IsUnused self.old }
        requires last { IsUnused last }
        ensures memory { arc_value self.new.memory ≡ arc_value self.old.memory }
        ensures numbers { (self.new.first ≡ self.old.first) × (self.new.upto ≡ last.upto) }
        ensures seen { handle_seen self.new ≡ longer (handle_seen self.old) (handle_seen last) }
        ensures fresh { self.new.fresh ≡ true }
        ensures unused { IsUnused self.new }
    {
        self.join(last);
        self.fresh = true;
    }
}
