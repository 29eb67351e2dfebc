//! Instructions that are carried through at once, over memory of one word that replies to each access at once.
ghost use Rattle.std.specs.Prelude.{◌≡◌, ◌<◌, ◌^◌, IfSome, length};
ghost use Rattle.llsc_base.specs.Memory.{size_bytes};
ghost use Rattle.guest_core.specs.Ports.{ReplyFits};

use super::programs::image;
use guest_core::{Code, Core, Passage, Ready, TryPort};
use llsc_base::{Ask, CallAsk, Place, Size, Stop};
use rv32_guest::{RvCpu, RvKept, Wanted};
use std::alloc::Global;
use std::test::Fail;

/// Memory of one word, which stands at each address.
#[derive(Drop)]
struct OneWord {
    word: u32,
    /// Whether the thread holds a reservation.
    reserved: bool,
    /// Whether each store is refused.
    full: bool,
    /// The access that was asked for last.
    asked: Option<Ask>,
}

impl OneWord {
    /// Memory that nobody has accessed.
    fn new(word: u32, full: bool) -> OneWord {
        OneWord {
            word,
            reserved: false,
            full,
            asked: None,
        }
    }

    /// The low part of the word.
    fn low(&self, size: Size) -> u64
        ensures { result < 256 ^ size_bytes size }
    {
        match size {
            Size::B1 => u64::from(self.word % 256),
            Size::B2 => u64::from(self.word % 65_536),
            Size::B4 | Size::B8 => u64::from(self.word),
        }
    }

    /// A store-conditional: 0 where it stores, and 1 where not.
    fn store_ex(&mut self, value: u64) -> u64 {
        if !self.reserved {
            return 1;
        }
        self.reserved = false;
        self.word = (value % 0x1_0000_0000) as u32;
        0
    }
}

impl TryPort for OneWord {
    ghost replies = { λ old ask reply new. IfSome reply (ReplyFits ask) };

    ghost mem = { λ memory. 65536 };

    ghost counted = { λ memory. 0 };

    fn try_reply(&mut self, ask: Ask) -> Option<u64> {
        self.asked = Some(ask);
        match ask {
            Ask::Load(place) => Some(self.low(place.size)),
            Ask::LoadEx(place) => {
                self.reserved = true;
                Some(self.low(place.size))
            }
            Ask::Store(_, value) => {
                if self.full {
                    return None;
                }
                self.word = (value % 0x1_0000_0000) as u32;
                Some(0)
            }
            Ask::StoreEx(_, value) => Some(self.store_ex(value)),
            Ask::Clear => Some(0),
        }
    }

    fn counts_one() {}
}

/// The word at 0x2000, its upper half, and the word behind it.
const WORD: Place = Place {
    addr: 0x2000,
    size: Size::B4,
};

const HALF: Place = Place {
    addr: 0x2002,
    size: Size::B2,
};

const SECOND: Place = Place {
    addr: 0x2004,
    size: Size::B4,
};

/// The thread's words: lw x12, 0(x10); add x12, x12, x11; sw x12, 4(x10); lr.w x12, (x10); sc.w x12, x11, (x10), twice;
/// lhu x12, 2(x10); bne x12, x12 to the ecall, beq x12, x12 to the ecall, no instruction, and ecall. x10 is 0x2000, x11 is 7, and the
/// word of memory is 0x10005.
const CARRIED: &[u32] = &[
    0x0005_2603,
    0x00b6_0633,
    0x00c5_2223,
    0x1005_262f,
    0x18b5_262f,
    0x18b5_262f,
    0x0025_5603,
    0x00c6_1663,
    0x00c6_0463,
    0x0000_0000,
    0x0000_0073,
];

/// How far an instruction came; the PC and x12 after it, the access that was asked for last, and the word of memory.
type State = (Passage, u32, u32, Option<Ask>, u32);

/// The states of that thread.
const STATES: &[State] = &[
    (
        Passage::Next,
        0x1004,
        0x10005,
        Some(Ask::Load(WORD)),
        0x10005,
    ),
    (
        Passage::Next,
        0x1008,
        0x1000c,
        Some(Ask::Load(WORD)),
        0x10005,
    ),
    (
        Passage::Next,
        0x100c,
        0x1000c,
        Some(Ask::Store(SECOND, 0x1000c)),
        0x1000c,
    ),
    (
        Passage::Next,
        0x1010,
        0x1000c,
        Some(Ask::LoadEx(WORD)),
        0x1000c,
    ),
    (Passage::Next, 0x1014, 0, Some(Ask::StoreEx(WORD, 7)), 7),
    (Passage::Next, 0x1018, 1, Some(Ask::StoreEx(WORD, 7)), 7),
    (Passage::Next, 0x101c, 7, Some(Ask::Load(HALF)), 7),
    (Passage::Next, 0x1020, 7, Some(Ask::Load(HALF)), 7),
    (Passage::Jumped, 0x1028, 7, Some(Ask::Load(HALF)), 7),
    (Passage::AtStart, 0x1028, 7, Some(Ask::Load(HALF)), 7),
];

/// Carries the next instruction through, which is met first, if there is one.
fn carried(cpu: &mut RvCpu, code: &mut Code<RvKept>, memory: &mut OneWord) -> Result<State, Fail>
    requires { length code.old.program.bytes ≡ 65536 }
    ensures { code.new.program ≡ code.old.program }
{
    if !cpu.is_between() {
        return Err("it is in an instruction")?;
    }
    let pc = cpu.pc();
    let _met = code.meet(pc);
    let mut kept = RvKept::unmet();
    if let Some(known) = code.from(pc) {
        if let Some(first) = known.first() {
            kept = *first;
        }
    }
    let passage = cpu.carry(&kept, code.image(), memory);
    Ok((passage, cpu.pc(), cpu.reg(12), memory.asked, memory.word))
}

#[test]
fn instructions_are_carried_through(rt: HostRuntime) -> Result<(), Fail> {
    let image = image(rt.alloc(), CARRIED)?;
    let mut code = Code::new(rt.alloc(), &image)?;
    let mut cpu = RvCpu::start(0x1000, 0x2000, 7, 0);
    let mut memory = OneWord::new(0x10005, false);
    for state in STATES {
        let got = carried(&mut cpu, &mut code, &mut memory)?;
        assert_eq!(rt; got, *state);
    }
    Ok(())
}

/// What holds an instruction that is carried no further than its start, over memory that refuses each store: x12 is as it was,
/// and the same is wanted of the core as ever.
fn held(alloc: Global, word: u32) -> Result<(State, Wanted), Fail> {
    let image = image(alloc, &[word])?;
    let mut code = Code::new(alloc, &image)?;
    let mut cpu = RvCpu::start(0x1000, 0x2000, 7, 0);
    let mut memory = OneWord::new(5, true);
    let state = carried(&mut cpu, &mut code, &mut memory)?;
    if !cpu.is_between() {
        return Err("it is in an instruction")?;
    }
    Ok((state, cpu.next(&image)))
}

/// A call without a number.
const CALL: CallAsk = CallAsk {
    imm: 0,
    number: 0,
    a: 0x2000,
    b: 7,
    c: 0,
};

/// A word, how far it comes, the access that was asked for, and what is wanted then: sw x11, 0(x10), ecall, lw x12, 1(x10), and no
/// instruction.
const HELD: &[(u32, Passage, Option<Ask>, Wanted)] = &[
    (
        0x00b5_2023,
        Passage::AtStart,
        Some(Ask::Store(WORD, 7)),
        Wanted::Access(Ask::Store(WORD, 7)),
    ),
    (0x0000_0073, Passage::AtStart, None, Wanted::Call(CALL)),
    (
        0x0015_2603,
        Passage::AtStart,
        None,
        Wanted::Stopped(Stop::Alignment(0x2001)),
    ),
    (
        0x0010_0073,
        Passage::Unmet,
        None,
        Wanted::Stopped(Stop::Undefined(0x1000)),
    ),
];

#[test]
fn instructions_are_held_at_their_start(rt: HostRuntime) -> Result<(), Fail> {
    for (word, passage, asked, wanted) in HELD {
        let (state, next) = held(rt.alloc(), *word)?;
        assert_eq!(rt; state, (*passage, 0x1000, 0, *asked, 5));
        assert_eq!(rt; next, *wanted);
    }
    Ok(())
}
