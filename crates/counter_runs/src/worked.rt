//! A worked counter guest: its words as numbers, and the law that its counters hold their namings.
ghost use Rattle.std.specs.Prelude.{◌≡◌, ◌<◌, ◌≤◌, ℕ, List, []};
ghost use Rattle.elf32.specs.Units.{unit_image};
ghost use Rattle.guest_gen.specs.Counters.{AreInRange, counter_place};
ghost use Rattle.guest_gen.specs.Namings.{namings_of};
ghost use Rattle.llsc_base.specs.Memory.{value_at};
ghost use Rattle.llsc_base.specs.Sizes.{Numbers};
ghost use Rattle.history.specs.Monitor.{at_rest_by, monitor_after};
ghost use Rattle.history.specs.Parts.{accesses_of};
ghost use Rattle.history.specs.declared.entry.Entry.{Entry};
ghost use Rattle.guest_thread.specs.Outcome.{HaveLeft, IsOutcome};
ghost use Rattle.guest_thread.specs.declared.ends.GuestEnd.{GuestEnd};
ghost use Rattle.a32_step.specs.Machine.{a32};

/// The words of the counter guest of seed 0 and three rounds.
pub const THREE_ROUNDS: [u32; 25] = [
    0xe300_4000, // movw r4, #0
    0xe340_4000, // movt r4, #0
    0xe084_4000, // add r4, r4, r0
    0xe306_560d, // movw r5, #26125
    0xe340_5019, // movt r5, #25
    0xe30f_635f, // movw r6, #62303
    0xe343_6c6e, // movt r6, #15470
    0xe300_8003, // movw r8, #3
    0xe340_8000, // movt r8, #0
    0xe3a0_9a02, // mov r9, #8192
    0xe358_0000, // loop: cmp r8, #0
    0x0a00_0009, // beq done
    0xe024_6594, // mla r4, r4, r5, r6
    0xe1a0_ae24, // mov r10, r4, lsr #28
    0xe089_a18a, // add r10, r9, r10, lsl #3
    0xe19a_bf9f, // try: ldrex r11, [r10]
    0xe28b_b001, // add r11, r11, #1
    0xe18a_cf9b, // strex r12, r11, [r10]
    0xe35c_0000, // cmp r12, #0
    0x1aff_fffa, // bne try
    0xe248_8001, // sub r8, r8, #1
    0xeaff_fff3, // b loop
    0xe3a0_0000, // done: mov r0, #0
    0xe3a0_7001, // mov r7, #1
    0xef00_0000, // svc #0
];

/// In every history of the guest of [`THREE_ROUNDS`] whose threads have all left with code 0, each counter holds how often the
/// threads name it.
pub fn three_rounds_count()
    ensures { (budget index : ℕ) (size : Numbers) (history : List Entry) (ends : List GuestEnd) →
        let program = unit_image (record { words = THREE_ROUNDS; bytes = []; space = 128 }) size in
        65536 ≤ size.mem → AreInRange size.threads 3 → IsOutcome a32 program size budget history ends → HaveLeft ends → index < 16 →
        value_at (monitor_after (at_rest_by size.granule program.bytes size.threads) (accesses_of history)).memory (counter_place index)
        ≡ namings_of 0 size.threads 3 index }
{}
