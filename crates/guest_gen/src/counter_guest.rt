//! The program whose threads count.
ghost use Rattle.std.specs.Prelude.{◌≡◌, ◌<◌, ◌^◌, IfOk, IfErr};
ghost use Rattle.elf32.specs.Units.{IsWithin};
ghost use Rattle.guest_gen.specs.Counters.{AreInRange, counter_unit, counter_words, fault_of, imm4_imm12};

use crate::faults::GenFault;
use elf32::{Bytes, Unit, Words};
use std::alloc::{AllocError, Global};

/// The most rounds of a thread.
const MOST_ROUNDS: u64 = 50_000;

/// How many counters there are.
pub const COUNTER_COUNT: u32 = 16;

/// Where the first counter begins.
pub const FIRST_COUNTER: u32 = 0x2000;

/// The bytes of the counters, of eight bytes each.
const COUNTERS_SIZE: u32 = 8 * COUNTER_COUNT;

/// The program whose threads each add 1 to a counter in so many rounds.
///
/// Sixteen counters stand in its space, eight bytes apart from address 0x2000 on, each a word; all are 0 at the start. In
/// each round a thread draws the next number of 32 bits by a linear congruential generator, and adds 1 to the counter that
/// the number's highest four bits name, by a load-exclusive and a store-exclusive that it tries until they succeed. Thread
/// `t` begins its draws at the low 32 bits of `seed` plus `t`. After `rounds` rounds it leaves with code 0. The program is
/// the same for any number of threads.
///
/// # Errors
///
/// [`GenFault::Range`] exactly where `threads` isn't 1 to 16 or `rounds` isn't 1 to 50,000, and [`GenFault::Memory`] for want
/// of memory.
pub fn counters(alloc: Global, seed: u64, threads: u64, rounds: u64) -> Result<Unit, GenFault>
    ensures unit { IfOk result (λ unit. unit ≡ counter_unit seed rounds) }
    ensures within { IfOk result IsWithin }
    ensures range { IfOk result (λ unit. AreInRange threads rounds) }
    ensures fault { IfErr result (λ fault. fault ≡ fault_of threads rounds) }
{
    if threads < 1 || threads > 16 || rounds < 1 || rounds > MOST_ROUNDS {
        return Err(GenFault::Range);
    }
    let Ok(words) = words(alloc, (seed % (1 << 32)) as u32, rounds as u32) else {
        return Err(GenFault::Memory);
    };
    Ok(Unit {
        words: Words::new(words),
        bytes: Bytes::new(Vec::new(alloc)),
        space: COUNTERS_SIZE,
    })
}

/// The words of the program of so many rounds, whose draws begin at `start` plus the thread's number.
fn words(alloc: Global, start: u32, rounds: u32) -> Result<Vec<u32>, AllocError>
    ensures { IfOk result (λ words. words.items ≡ counter_words start rounds) }
{
    Ok(vec![
        in alloc;
        0xe300_4000 + imm4_imm12(start % 65_536),  // movw r4, #LOW
        0xe340_4000 + imm4_imm12(start / 65_536),  // movt r4, #HIGH
        0xe084_4000,                               // add r4, r4, r0
        0xe306_560d,                               // movw r5, #26125
        0xe340_5019,                               // movt r5, #25
        0xe30f_635f,                               // movw r6, #62303
        0xe343_6c6e,                               // movt r6, #15470
        0xe300_8000 + imm4_imm12(rounds % 65_536), // movw r8, #LOW
        0xe340_8000 + imm4_imm12(rounds / 65_536), // movt r8, #HIGH
        0xe3a0_9a02,                               // mov r9, #8192
        0xe358_0000,                               // loop: cmp r8, #0
        0x0a00_0009,                               // beq done
        0xe024_6594,                               // mla r4, r4, r5, r6
        0xe1a0_ae24,                               // mov r10, r4, lsr #28
        0xe089_a18a,                               // add r10, r9, r10, lsl #3
        0xe19a_bf9f,                               // try: ldrex r11, [r10]
        0xe28b_b001,                               // add r11, r11, #1
        0xe18a_cf9b,                               // strex r12, r11, [r10]
        0xe35c_0000,                               // cmp r12, #0
        0x1aff_fffa,                               // bne try
        0xe248_8001,                               // sub r8, r8, #1
        0xeaff_fff3,                               // b loop
        0xe3a0_0000,                               // done: mov r0, #0
        0xe3a0_7001,                               // mov r7, #1
        0xef00_0000                                // svc #0
    ]?)
}

/// 16 bits as MOVW and MOVT have them: the highest four are imm4, in bits 19 to 16 of the word, and the others imm12.
fn imm4_imm12(half: u32) -> u32
    requires { half < 2 ^ 16 }
    ensures { result ≡ imm4_imm12 half }
{
    65_536 * (half / 4096) + half % 4096
}
