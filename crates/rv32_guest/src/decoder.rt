//! The instruction of a word, by its opcode.
ghost use Rattle.std.specs.Prelude.{◌≡◌};
ghost use Rattle.rv32_guest.specs.Table.{meaning, table};

use crate::instructions::RvInstr;
use crate::{branches, computing, jumps, memory, system};
use llsc_base::{DecodeFault, bits};

/// The instruction that a word is, by the table of words. The encodings go by the opcode, bits 6:0.
///
/// # Errors
///
/// `Undefined` exactly where the word fits no row of the table. No word is unpredictable.
#[inline]
pub fn rv_decode(word: u32) -> Result<RvInstr, DecodeFault>
    ensures { result ≡ meaning table word }
{
    match bits(word, 0, 7) {
        0x03 => memory::load(word),
        0x0f => system::fence(word),
        0x13 => computing::with_immediate(word),
        0x17 => jumps::add_upper(word),
        0x23 => memory::store(word),
        0x2f => memory::atomic(word),
        0x33 => computing::with_registers(word),
        0x37 => jumps::load_upper(word),
        0x63 => branches::branch(word),
        0x67 => jumps::jump_by_register(word),
        0x6f => jumps::jump(word),
        0x73 => system::call(word),
        _ => Err(DecodeFault::Undefined),
    }
}
