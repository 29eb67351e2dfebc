//! Who replies to a thread's accesses.
ghost use Rattle.std.specs.Prelude.{◌≡◌, ◌<◌, ◌≤◌, ◌+◌, ◌^◌, ℕ, IfNone, IfSome, Option, Some, None};
ghost use Rattle.llsc_base.specs.declared.outside.Ask.{Ask};
ghost use Rattle.guest_core.specs.Ports.{IsAskIn, IsRefused, ReplyFits};

use llsc_base::Ask;

/// Who replies to the accesses of a thread, each at once, or not at all: a memory, say, with what is counted of it. Which replies may
/// come is the port's to say (`replies`); what a thread does over a port it does with replies that lead from the port as it was to
/// the port as it is (`specs/Ports`).
///
/// ```
/// impl TryPort for Clock {
///     ghost replies = { IsTicked }; // which reply leads from which clock to which
///     ..
///     fn try_reply(&mut self, ask: Ask) -> Option<u64> {
///         Some(match ask {
///             Ask::Load(_) | Ask::LoadEx(_) => self.read(),
///             Ask::StoreEx(_, _) => STATUS_FAILED,
///             Ask::Store(_, _) | Ask::Clear => 0,
///         })
///     }
/// }
/// ```
pub trait TryPort {
    /// Whether such an answer to an access, a reply or none, leads from a port, the first, to another, the last.
    ghost replies: { Self → Ask → Option ℕ → Self → Type 0 };

    /// How many bytes of memory may be accessed.
    ghost mem: { Self → ℕ };

    /// How many accesses were made so far, or fewer.
    ghost counted: { Self → ℕ };

    /// Makes an access, and replies: the value of a load, 1 where a store-exclusive failed, and otherwise 0. `None` where it
    /// can't be made at once: then it isn't made.
    fn try_reply(&mut self, ask: Ask) -> Option<u64>
        requires may { IsAskIn (mem self.old) ask }
        requires few { counted self.old < 2 ^ 63 }
        ensures replied { replies self.old ask result self.new }
        ensures fits { IfSome result (ReplyFits ask) }
        ensures mem { mem self.new ≡ mem self.old }
        ensures counted { counted self.new ≤ counted self.old + 1 };

    /// The law that a reply counts for one access at most, and none for none.
    fn counts_one()
        ensures one { (old : Self) (ask : Ask) (reply : ℕ) (new : Self) → replies old ask (Some reply) new → counted new ≤ counted old + 1 }
        ensures none { (old : Self) (ask : Ask) (new : Self) → replies old ask None new → counted new ≤ counted old };
}

/// A port that makes every access, where it has to wait with the help of a handle, but a store for which memory has no write left.
pub trait Port<H>: TryPort {
    /// Whether memory has no write left for a store to an address.
    ghost refuses: { Self → ℕ → Type 0 };

    /// Makes an access, and replies as [`TryPort::try_reply`] does. `None` where memory has no write left for a store: then it isn't
    /// made.
    fn reply(&mut self, handle: &H, ask: Ask) -> Option<u64>
        requires may { IsAskIn (Self.mem self.old) ask }
        requires few { Self.counted self.old < 2 ^ 63 }
        ensures replied { Self.replies self.old ask result self.new }
        ensures fits { IfSome result (ReplyFits ask) }
        ensures refused { IfNone result (IsRefused (refuses self.new) ask) }
        ensures mem { Self.mem self.new ≡ Self.mem self.old }
        ensures counted { Self.counted self.new ≤ Self.counted self.old + 1 };
}
