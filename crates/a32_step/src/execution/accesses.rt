//! The access of an instruction that makes one.
ghost use Rattle.std.specs.Prelude.{◌≡◌, ◌≢◌, ◌<◌, ◌≤◌, ◌+◌, ◌^◌, [], length, IfSome, IsFalse};
ghost use Rattle.a32_step.specs.inner.ExecutionState.{Between};
ghost use Rattle.guest_core.specs.Machine.{ValueFits};
ghost use Rattle.a32_step.specs.inner.Acting.{IsReplied, with_reply};

use super::Execution;
use crate::phases::Progress;
use crate::sources::Source;
use guest_core::stop_at;
use llsc_base::{Ask, Image};

impl Execution {
    /// The reply to the instruction's access: the one that it has had, or the source's. `None` where something bars the access, so
    /// that the thread stops, or where the source has no reply, and the instruction waits.
    #[inline(always)]
    #[tactic(auto, using(guest_core::proofs::Placed::passed_placed))]
    pub(super) fn reply_to<S: Source>(
        &mut self,
        image: &Image,
        ask: Ask,
        source: &mut S,
    ) -> Option<u64>
        requires fits { ValueFits ask }
        requires fresh { IsFalse S.RESUMES → self.old.replies ≡ [] }
        requires mem { S.mem source.old ≡ length image.now.bytes }
        requires few { S.counted source.old < 2 ^ 63 }
        ensures replied { IsReplied S.replies image.now ask self.old source.old result self.new source.new }
        ensures same { IfSome result (λ _. self.new ≡ self.old) }
        ensures mem { S.mem source.new ≡ S.mem source.old }
        ensures counted { S.counted source.new ≤ S.counted source.old + 1 }
    {
        if S::RESUMES {
            if let Some(reply) = self.replies.first() {
                return Some(reply);
            }
        }
        if let Some(stop) = stop_at(image, ask) {
            self.stop(stop);
            return None;
        }
        let Some(reply) = source.reply(ask) else {
            self.wait(ask);
            return None;
        };
        Some(reply)
    }

    /// The instruction is complete with its reply; where it stopped the thread instead, the reply is kept as one that it has had.
    #[inline(always)]
    pub(super) fn after(&mut self, reply: u64, progress: Progress) -> Progress
        requires { progress ≡ Progress.Held → self.old.stage ≢ Between }
        ensures progress { result ≡ progress }
        ensures complete { progress ≡ Progress.Complete → self.new ≡ self.old }
        ensures held { progress ≡ Progress.Held → self.new ≡ record self.old { replies = with_reply reply self.old.replies } }
    {
        if progress == Progress::Held {
            self.keep_first(reply);
        }
        progress
    }

    /// The reply is kept, if it is the first.
    #[cold]
    #[inline(never)]
    fn keep_first(&mut self, reply: u64)
        requires { self.old.stage ≢ Between }
        ensures { self.new ≡ record self.old { replies = with_reply reply self.old.replies } }
    {
        if self.replies.count() == 0 {
            self.replies.push(reply);
        }
    }
}
