//! Loads and stores of one register (DDI 0406C A5.2.8, A5.3).
ghost use Rattle.std.specs.Prelude.{◌≡◌, ◌<◌, ◌≤◌, ◌+◌, ◌^◌, length, [], IsFalse};
ghost use Rattle.llsc_base.specs.Memory.{size_bytes};
ghost use Rattle.a32_instr.specs.State.{advanced, jumps, register, writes};
ghost use Rattle.a32_instr.specs.LoadStore.{access_size, accessed_address, half, half_size, distance_of, loads, loads_half, moved_address, stores, word, written_back};
ghost use Rattle.a32_step.specs.inner.Progress.{progress_of};
ghost use Rattle.a32_step.specs.inner.ExecutionState.{moves};
ghost use Rattle.a32_step.specs.inner.Acting.{IsActed};

use super::Execution;
use crate::phases::Progress;
use crate::sources::Source;
use a32_compute::operands::{
    accessed_address, half_stored, is_added, moved, part_stored, size_of_half,
};
use a32_compute::parts::{loaded_half, loaded_word};
use a32_compute::shifts::shift_by_number;
use a32_instr::{HalfKind, Index, Offset, Reg};
use llsc_base::{Ask, Image, Place, Size};

/// What becomes of the base register when a load or a store is complete.
#[derive(Clone, Copy)]
struct WriteBack {
    index: Index,
    rn: Reg,
    moved: u32,
}

/// The address that a load or a store accesses, and the moved one.
#[derive(Clone, Copy)]
struct Aim {
    addr: u32,
    moved: u32,
}

impl Execution {
    /// How far an offset moves.
    #[inline(always)]
    fn distance(&self, offset: &Offset) -> u32
        ensures { result ≡ distance_of offset.now self.now.state }
    {
        match *offset {
            Offset::Imm { imm, .. } => u32::from(imm),
            Offset::Shifted {
                rm,
                kind,
                amount,
                ..
            } => shift_by_number(kind, self.operand(rm), amount, self.flags.c).value,
        }
    }

    /// The address that is accessed, and the moved one; the base register is read once for both.
    #[inline(always)]
    fn aim(&self, index: Index, rn: Reg, offset: &Offset) -> Aim
        ensures addr { result.addr ≡ accessed_address index (register self.now.state rn) result.moved }
        ensures moved { result.moved ≡ moved_address rn offset.now self.now.state }
    {
        let base = self.operand(rn);
        let moved = moved(base, is_added(offset), self.distance(offset));
        Aim {
            addr: accessed_address(index, base, moved),
            moved,
        }
    }

    /// The moved address goes to the base register, where the index writes it back.
    fn write_back(&mut self, index: Index, rn: Reg, moved: u32)
        ensures { self.new ≡ record self.old { state = written_back index rn moved self.old.state } }
    {
        match index {
            Index::Plain => {}
            Index::Pre | Index::Post => self.set(rn, moved),
        }
    }

    /// A load is complete: the base is written back, and then the value goes to its register, which may be the PC.
    #[inline(always)]
    fn finish_load(&mut self, back: WriteBack, rt: Reg, value: u32) -> Progress
        ensures progress { result ≡ progress_of (writes (written_back back.index back.rn back.moved self.old.state) rt value) }
        ensures state { self.new ≡ moves self.old (writes (written_back back.index back.rn back.moved self.old.state) rt value) }
    {
        if rt.num() == 15 {
            return self.load_pc(back, value);
        }
        self.write_back(back.index, back.rn, back.moved);
        self.set(rt, value);
        self.advance()
    }

    /// A load into the PC is complete, if the value is one that the PC may have.
    fn load_pc(&mut self, back: WriteBack, value: u32) -> Progress
        ensures progress { result ≡ progress_of (jumps (written_back back.index back.rn back.moved self.old.state) value) }
        ensures state { self.new ≡ moves self.old (jumps (written_back back.index back.rn back.moved self.old.state) value) }
    {
        if let Some(stop) = self.stop_at_value(value) {
            return self.stop(stop);
        }
        self.write_back(back.index, back.rn, back.moved);
        self.pc = value;
        Progress::Complete
    }

    /// A store is complete: the base is written back.
    #[inline(always)]
    fn finish_store(&mut self, back: WriteBack) -> Progress
        ensures progress { result ≡ Progress.Complete }
        ensures state { self.new ≡ record self.old { state = advanced (written_back back.index back.rn back.moved self.old.state) } }
    {
        self.write_back(back.index, back.rn, back.moved);
        self.advance()
    }
}

impl Execution {
    /// A load of a word or a byte.
    #[inline(always)]
    fn load<S: Source>(
        &mut self,
        image: &Image,
        place: Place,
        byte: bool,
        back: WriteBack,
        rt: Reg,
        source: &mut S,
    ) -> Progress
        requires size { place.size ≡ access_size byte }
        requires fresh { IsFalse S.RESUMES → self.old.replies ≡ [] }
        requires mem { S.mem source.old ≡ length image.now.bytes }
        requires few { S.counted source.old < 2 ^ 63 }
        ensures acted { IsActed S.replies (λ had. loads image.now place (written_back back.index back.rn back.moved self.old.state) rt had self.old.state) self.old source.old result self.new source.new }
        ensures mem { S.mem source.new ≡ S.mem source.old }
        ensures counted { S.counted source.new ≤ S.counted source.old + 1 }
    {
        let Some(reply) = self.reply_to(image, Ask::Load(place), source) else {
            return Progress::Held;
        };
        let progress = self.finish_load(back, rt, loaded_word(byte, reply));
        self.after(reply, progress)
    }

    /// A load of a halfword, or of a signed byte.
    #[inline(always)]
    fn load_half<S: Source>(
        &mut self,
        image: &Image,
        place: Place,
        kind: HalfKind,
        back: WriteBack,
        rt: Reg,
        source: &mut S,
    ) -> Progress
        requires size { place.size ≡ half_size kind }
        requires fresh { IsFalse S.RESUMES → self.old.replies ≡ [] }
        requires mem { S.mem source.old ≡ length image.now.bytes }
        requires few { S.counted source.old < 2 ^ 63 }
        ensures acted { IsActed S.replies (λ had. loads_half kind image.now place (written_back back.index back.rn back.moved self.old.state) rt had self.old.state) self.old source.old result self.new source.new }
        ensures mem { S.mem source.new ≡ S.mem source.old }
        ensures counted { S.counted source.new ≤ S.counted source.old + 1 }
    {
        let Some(reply) = self.reply_to(image, Ask::Load(place), source) else {
            return Progress::Held;
        };
        let progress = self.finish_load(back, rt, loaded_half(kind, reply));
        self.after(reply, progress)
    }

    /// A store of a value.
    #[inline(always)]
    fn store<S: Source>(
        &mut self,
        image: &Image,
        place: Place,
        value: u64,
        back: WriteBack,
        source: &mut S,
    ) -> Progress
        requires fits { value < 256 ^ size_bytes place.size }
        requires fresh { IsFalse S.RESUMES → self.old.replies ≡ [] }
        requires mem { S.mem source.old ≡ length image.now.bytes }
        requires few { S.counted source.old < 2 ^ 63 }
        ensures acted { IsActed S.replies (λ had. stores image.now place (written_back back.index back.rn back.moved self.old.state) value had self.old.state) self.old source.old result self.new source.new }
        ensures mem { S.mem source.new ≡ S.mem source.old }
        ensures counted { S.counted source.new ≤ S.counted source.old + 1 }
    {
        let Some(_reply) = self.reply_to(image, Ask::Store(place, value), source) else {
            return Progress::Held;
        };
        self.finish_store(back)
    }

    /// A load or a store of a word or a byte (DDI 0406C A5.3).
    #[inline(always)]
    pub(super) fn access_word<S: Source>(
        &mut self,
        image: &Image,
        load: bool,
        byte: bool,
        index: Index,
        rn: Reg,
        rt: Reg,
        offset: &Offset,
        source: &mut S,
    ) -> Progress
        requires fresh { IsFalse S.RESUMES → self.old.replies ≡ [] }
        requires mem { S.mem source.old ≡ length image.now.bytes }
        requires few { S.counted source.old < 2 ^ 63 }
        ensures acted { IsActed S.replies (λ had. word image.now load byte index rn rt offset.now had self.old.state) self.old source.old result self.new source.new }
        ensures mem { S.mem source.new ≡ S.mem source.old }
        ensures counted { S.counted source.new ≤ S.counted source.old + 1 }
    {
        let Aim { addr, moved } = self.aim(index, rn, offset);
        let back = WriteBack { index, rn, moved };
        let word = Place {
            addr,
            size: Size::B4,
        };
        let single = Place {
            addr,
            size: Size::B1,
        };
        if load {
            if byte {
                return self.load(image, single, true, back, rt, source);
            }
            return self.load(image, word, false, back, rt, source);
        }
        let value = self.operand(rt);
        if byte {
            return self.store(image, single, part_stored(true, value), back, source);
        }
        self.store(image, word, part_stored(false, value), back, source)
    }

    /// A load or a store of a halfword, or a load of a signed byte (DDI 0406C A5.2.8).
    #[inline(always)]
    pub(super) fn access_half<S: Source>(
        &mut self,
        image: &Image,
        kind: HalfKind,
        index: Index,
        rn: Reg,
        rt: Reg,
        offset: &Offset,
        source: &mut S,
    ) -> Progress
        requires fresh { IsFalse S.RESUMES → self.old.replies ≡ [] }
        requires mem { S.mem source.old ≡ length image.now.bytes }
        requires few { S.counted source.old < 2 ^ 63 }
        ensures acted { IsActed S.replies (λ had. half image.now kind index rn rt offset.now had self.old.state) self.old source.old result self.new source.new }
        ensures mem { S.mem source.new ≡ S.mem source.old }
        ensures counted { S.counted source.new ≤ S.counted source.old + 1 }
    {
        let Aim { addr, moved } = self.aim(index, rn, offset);
        let place = Place {
            addr,
            size: size_of_half(kind),
        };
        let back = WriteBack { index, rn, moved };
        if kind == HalfKind::Strh {
            let value = half_stored(self.operand(rt));
            return self.store(image, place, value, back, source);
        }
        self.load_half(image, place, kind, back, rt, source)
    }
}
