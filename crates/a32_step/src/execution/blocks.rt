//! Loads and stores of a block of registers (DDI 0406C A5.5).
ghost use Rattle.std.specs.Prelude.{◌≡◌, ◌<◌, ◌≤◌, ◌+◌, ◌^◌, IsFalse, IsTrue, None, length, not, []};
ghost use Rattle.llsc_base.specs.Images.{first_barred};
ghost use Rattle.a32_instr.specs.State.{State, jumps};
ghost use Rattle.llsc_base.specs.Effects.{asks};
ghost use Rattle.a32_instr.specs.Block.{count_of, block_size, block, block_at, block_back, block_done, block_loaded, with_block};
ghost use Rattle.a32_step.specs.inner.Progress.{progress_of};
ghost use Rattle.a32_step.specs.inner.ExecutionState.{Awaiting, Inside, moves, resting};
ghost use Rattle.a32_compute.specs.Lists.{AreLeft};
ghost use Rattle.a32_step.specs.inner.Acting.{IsActed, IsGiven, word_ask};

use super::Execution;
use crate::phases::Progress;
use crate::sources::Source;
use a32_compute::operands::moved;
use a32_compute::parts::low_word;
use a32_compute::registers::{count_of, is_listed, listed, lowest_address};
use a32_instr::Reg;
use llsc_base::{Ask, Image, Place, Size};

/// The fields of a block's load or store.
#[derive(Clone, Copy)]
pub(super) struct Transfer {
    pub load: bool,
    pub before: bool,
    pub up: bool,
    pub wback: bool,
    pub rn: Reg,
    pub list: u16,
}

impl Execution {
    /// The base register moves past the block, where it is written back.
    fn move_base(&mut self, transfer: Transfer, bytes: u32)
        ensures { self.new ≡ record self.old { state = block_back transfer.wback transfer.up transfer.rn bytes self.old.state } }
    {
        if transfer.wback {
            let base = moved(self.operand(transfer.rn), transfer.up, bytes);
            self.set(transfer.rn, base);
        }
    }

    /// Each listed register gets its reply.
    #[tactic(auto, using(a32_compute::proofs::Lists::from_lowest, a32_compute::proofs::Lists::at_unlisted, a32_compute::proofs::Lists::loaded_all, a32_compute::proofs::Lists::left_first, a32_compute::proofs::Lists::left_unlisted, a32_compute::proofs::Lists::less))]
    fn set_listed(&mut self, list: u16)
        requires { count_of list ≤ length self.old.replies }
        ensures { self.new ≡ record self.old { state = with_block list self.old.replies self.old.state } }
    {
        let mut number = 0usize;
        for r in 0..16u8 {
            if !is_listed(list, r) {
                continue;
            }
            let value = low_word(self.replies.at(number));
            self.set(Reg::new(r), value);
            number += 1;
        }
    }

    /// A block is loaded: the base moves, and then the registers get their words.
    #[tactic(auto, using(a32_compute::proofs::Lists::pc_counts, a32_compute::proofs::Lists::pc_last))]
    fn finish_block(&mut self, transfer: Transfer, count: u32) -> Progress
        requires count { count ≡ count_of transfer.list }
        requires most { count ≤ 16 }
        requires all { count_of transfer.list ≤ length self.old.replies }
        ensures progress { result ≡ progress_of (block_loaded transfer.list self.old.replies (block_back transfer.wback transfer.up transfer.rn (block_size transfer.list) self.old.state)) }
        ensures state { self.new ≡ moves self.old (block_loaded transfer.list self.old.replies (block_back transfer.wback transfer.up transfer.rn (block_size transfer.list) self.old.state)) }
    {
        let list = transfer.list;
        if is_listed(list, 15) {
            let value = low_word(self.replies.at(count as usize - 1));
            return self.finish_at(transfer, count, value);
        }
        self.move_base(transfer, 4 * count);
        self.set_listed(list);
        self.advance()
    }

    /// A block is loaded with the PC, if its word is one that the PC may have.
    fn finish_at(&mut self, transfer: Transfer, count: u32, value: u32) -> Progress
        requires count { count ≡ count_of transfer.list }
        requires most { count ≤ 16 }
        requires all { count_of transfer.list ≤ length self.old.replies }
        ensures progress { result ≡ progress_of (jumps (with_block transfer.list self.old.replies (block_back transfer.wback transfer.up transfer.rn (block_size transfer.list) self.old.state)) value) }
        ensures state { self.new ≡ moves self.old (jumps (with_block transfer.list self.old.replies (block_back transfer.wback transfer.up transfer.rn (block_size transfer.list) self.old.state)) value) }
    {
        if let Some(stop) = self.stop_at_value(value) {
            return self.stop(stop);
        }
        let list = transfer.list;
        self.move_base(transfer, 4 * count);
        self.set_listed(list);
        self.pc = value;
        Progress::Complete
    }

    /// A block whose words were all accessed is complete, if its PC may be.
    #[inline(always)]
    fn finish_transfer(&mut self, transfer: Transfer, count: u32) -> Progress
        requires count { count ≡ count_of transfer.list }
        requires most { count ≤ 16 }
        requires all { count_of transfer.list ≤ length self.old.replies }
        ensures progress { result ≡ progress_of (block_done transfer.load transfer.list self.old.replies (block_back transfer.wback transfer.up transfer.rn (block_size transfer.list) self.old.state)) }
        ensures state { self.new ≡ moves self.old (block_done transfer.load transfer.list self.old.replies (block_back transfer.wback transfer.up transfer.rn (block_size transfer.list) self.old.state)) }
    {
        if transfer.load {
            return self.finish_block(transfer, count);
        }
        self.move_base(transfer, 4 * count);
        self.advance()
    }
}

impl Execution {
    /// The access of a block's register, whose word is at this address.
    #[inline(always)]
    fn word_ask(&self, load: bool, addr: u32, r: Reg) -> Ask
        ensures { result ≡ word_ask load addr r self.now.state }
    {
        let place = Place {
            addr,
            size: Size::B4,
        };
        if load {
            return Ask::Load(place);
        }
        Ask::Store(place, u64::from(self.operand(r)))
    }

    /// The accesses of a block of so many words, whose lowest is at this address, from the lowest register up, past those that have
    /// had their replies, as far as the source replies. Whether all have had theirs.
    fn access_each<S: Source>(
        &mut self,
        image: &Image,
        load: bool,
        list: u16,
        count: u32,
        lowest: u32,
        source: &mut S,
    ) -> bool
        requires begun { self.old.stage ≡ Inside }
        requires count { count ≡ count_of list }
        requires passes { first_barred image.now (not load) lowest (count_of list) ≡ None }
        requires fresh { IsFalse S.RESUMES → self.old.replies ≡ [] }
        requires mem { S.mem source.old ≡ length image.now.bytes }
        requires few { S.counted source.old + 16 ≤ 2 ^ 63 }
        ensures given { (back : State) → IsGiven S.replies (λ had. block_at image.now load lowest list back had self.old.state) self.old.replies source.old self.new.replies source.new }
        ensures all { IsTrue result → (self.new ≡ record self.old { replies = self.new.replies }) × (count_of list ≤ length self.new.replies) }
        ensures held { IsFalse result → (ask : Ask) × ((back : State) → block_at image.now load lowest list back self.new.replies self.old.state ≡ asks ask) × (self.new ≡ record self.old { stage = Awaiting ask; replies = self.new.replies }) }
        ensures mem { S.mem source.new ≡ S.mem source.old }
        ensures counted { S.counted source.new ≤ S.counted source.old + 16 }
    {
        let had = if S::RESUMES { self.replies.count() } else { 0 };
        if count as usize <= had {
            return true;
        }
        let mut addr = lowest.wrapping_add(4 * had as u32);
        for r in first_left(list, had)..16u8 {
            if !is_listed(list, r) {
                continue;
            }
            let ask = self.word_ask(load, addr, Reg::new(r));
            let Some(reply) = source.reply(ask) else {
                self.wait(ask);
                return false;
            };
            self.replies.push(reply);
            addr = addr.wrapping_add(4);
        }
        true
    }

    /// LDM and STM (DDI 0406C A8.8.58 to A8.8.61, A8.8.199 to A8.8.202).
    #[inline(never)]
    pub(super) fn access_block<S: Source>(
        &mut self,
        image: &Image,
        transfer: Transfer,
        source: &mut S,
    ) -> Progress
        requires fresh { IsFalse S.RESUMES → self.old.replies ≡ [] }
        requires mem { S.mem source.old ≡ length image.now.bytes }
        requires few { S.counted source.old + 16 ≤ 2 ^ 63 }
        ensures acted { IsActed S.replies (λ had. block image.now transfer.load transfer.before transfer.up transfer.wback transfer.rn transfer.list had self.old.state) self.old source.old result self.new source.new }
        ensures mem { S.mem source.new ≡ S.mem source.old }
        ensures counted { S.counted source.new ≤ S.counted source.old + 16 }
    {
        let count = count_of(transfer.list);
        let base = self.operand(transfer.rn);
        let lowest = lowest_address(transfer.up, transfer.before, base, 4 * count);
        if let Some(word) = image.test_words(lowest, count, !transfer.load) {
            return self.stop(word.bar.stop_at(word.addr));
        }
        self.begin();
        if !self.access_each(image, transfer.load, transfer.list, count, lowest, source) {
            return Progress::Held;
        }
        let progress = self.finish_transfer(transfer, count);
        self.after_all(progress)
    }

    /// Where the block is complete, it is over.
    #[inline(always)]
    fn after_all(&mut self, progress: Progress) -> Progress
        ensures progress { result ≡ progress }
        ensures complete { progress ≡ Progress.Complete → self.new ≡ resting self.old.state }
        ensures held { progress ≡ Progress.Held → self.new ≡ self.old }
    {
        if progress == Progress::Complete {
            self.finish();
        }
        progress
    }
}

/// A register from which up those of a block are left, past so many that have had their replies.
#[inline(always)]
fn first_left(list: u16, had: usize) -> u8
    requires { had < count_of list }
    ensures { AreLeft list result had }
{
    if had == 0 {
        return 0;
    }
    listed(list, had).num()
}
