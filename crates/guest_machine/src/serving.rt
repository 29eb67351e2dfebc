//! The accesses that memory makes of what threads ask.
ghost use Rattle.std.specs.Prelude.{◌≡◌, ◌<◌, length};
ghost use Rattle.history.specs.Accesses.{entry_of};
ghost use Rattle.history.specs.ArmLegal.{MayAccess};
ghost use Rattle.history.specs.Monitor.{IsAsLarge, accessed};
ghost use Rattle.run_record.specs.Limits.{IsAccess};
ghost use Rattle.guest_calls.specs.Pairs.{reply_of};
ghost use Rattle.guest_thread.specs.Accesses.{access_by};
ghost use Rattle.guest_core.specs.Ports.{IsAskIn, ReplyFits};

use guest_thread::tried_by;
use history::{Access, PlainMemory};
use llsc_base::Ask;

/// Makes the access that a thread asks for.
#[inline(always)]
pub(crate) fn serve(memory: &mut PlainMemory, t: u32, ask: Ask) -> Access
    requires known { t < length memory.old.marks }
    requires may { IsAskIn (length memory.old.memory) ask }
    ensures access { result ≡ access_by memory.old t ask }
    ensures memory { memory.new ≡ accessed memory.old (entry_of result) }
    ensures size { IsAsLarge memory.old memory.new }
    ensures may { MayAccess memory.old (entry_of result) }
    ensures sound { IsAccess (length memory.old.marks) result }
    ensures reply { ReplyFits ask (reply_of result) }
{
    memory.make(tried_by(t, ask))
}
