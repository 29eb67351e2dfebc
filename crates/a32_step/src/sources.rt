//! Where an instruction has the replies from that it hasn't had yet.
ghost use Rattle.std.specs.Prelude.{◌≡◌, Bool, ◌<◌, ◌≤◌, ◌+◌, ◌^◌, ℕ, Option};
ghost use Rattle.llsc_base.specs.declared.outside.Ask.{Ask};
ghost use Rattle.guest_core.specs.Ports.{IsAskIn};

use guest_core::TryPort;
use llsc_base::Ask;

/// Who is asked for the accesses to which an instruction has had no reply: a port, which replies at once or not at all, or nobody, so that the
/// core says what it wants.
pub trait Source {
    /// Whether such an answer to an access, a reply or none, leads from a source, the first, to another, the last.
    ghost replies: { Self → Ask → Option ℕ → Self → Type 0 };

    /// How many bytes of memory may be accessed.
    ghost mem: { Self → ℕ };

    /// How many accesses were made so far, or fewer.
    ghost counted: { Self → ℕ };

    /// Whether an instruction may have had replies before.
    ghost RESUMES: { Bool };

    /// Whether an instruction may have had replies before, from elsewhere; where none has, nothing looks for them.
    const RESUMES: bool;

    /// The reply to an access, if there is one.
    fn reply(&mut self, ask: Ask) -> Option<u64>
        requires may { IsAskIn (mem self.old) ask }
        requires few { counted self.old < 2 ^ 63 }
        ensures replied { replies self.old ask result self.new }
        ensures mem { mem self.new ≡ mem self.old }
        ensures counted { counted self.new ≤ counted self.old + 1 };
}

/// A port is asked for each access of an instruction, from its first on.
impl<P: TryPort> Source for P {
    ghost use Rattle.std.specs.Prelude.{false};

    ghost replies = { P.replies };

    ghost mem = { P.mem };

    ghost counted = { P.counted };

    ghost RESUMES = { false };

    const RESUMES: bool = false;

    #[inline(always)]
    fn reply(&mut self, ask: Ask) -> Option<u64> {
        self.try_reply(ask)
    }
}

/// Nobody replies to an access of a memory of so many bytes.
#[derive(Drop)]
pub struct Nobody {
    pub bytes: usize,
}

impl Source for Nobody {
    ghost use Rattle.std.specs.Prelude.{true};
    ghost use Rattle.a32_step.specs.inner.Acting.{IsSilent};

    ghost replies = { λ old ask reply new. IsSilent old ask reply new };

    ghost mem = { λ nobody. nobody.bytes };

    ghost counted = { λ nobody. 0 };

    ghost RESUMES = { true };

    const RESUMES: bool = true;

    #[inline(always)]
    fn reply(&mut self, _ask: Ask) -> Option<u64> {
        None
    }
}
