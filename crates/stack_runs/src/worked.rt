//! A worked stack guest, that of `examples/proved_stack`: its words as numbers, and the law that no node of it is lost.
ghost use Rattle.std.specs.Prelude.{◌≡◌, ◌*◌, ◌<◌, ◌≤◌, ℕ, List};
ghost use Rattle.std.specs.List.{flat_map};
ghost use Rattle.elf32.specs.Units.{unit_image};
ghost use Rattle.llsc_base.specs.Memory.{bytes_of};
ghost use Rattle.llsc_base.specs.Sizes.{Numbers};
ghost use Rattle.history.specs.Monitor.{at_rest_by, monitor_after};
ghost use Rattle.history.specs.Parts.{accesses_of};
ghost use Rattle.history.specs.declared.entry.Entry.{Entry};
ghost use Rattle.guest_thread.specs.Outcome.{HaveLeft, IsOutcome};
ghost use Rattle.guest_thread.specs.declared.ends.GuestEnd.{GuestEnd};
ghost use Rattle.a32_step.specs.Machine.{a32};
ghost use Rattle.stack_runs.specs.Guest.{AreInRange};
ghost use Rattle.stack_runs.specs.Stacks.{HoldsEachOnce, counts_below};

/// The words of the stack guest of 1000 rounds.
pub const THOUSAND_ROUNDS: [u32; 23] = [
    0xe3a0_8a02, // mov r8, #8192
    0xe300_93e8, // movw r9, #1000
    0xe198_0f9f, // pop: ldrex r0, [r8]
    0xe350_0000, // cmp r0, #0
    0x0aff_fffc, // beq pop
    0xe590_1000, // ldr r1, [r0]
    0xe188_2f91, // strex r2, r1, [r8]
    0xe352_0000, // cmp r2, #0
    0x1aff_fff8, // bne pop
    0xe590_1004, // ldr r1, [r0, #4]
    0xe281_1001, // add r1, r1, #1
    0xe580_1004, // str r1, [r0, #4]
    0xe198_1f9f, // push: ldrex r1, [r8]
    0xe580_1000, // str r1, [r0]
    0xe188_2f90, // strex r2, r0, [r8]
    0xe352_0000, // cmp r2, #0
    0x1aff_fffa, // bne push
    0xe249_9001, // sub r9, r9, #1
    0xe359_0000, // cmp r9, #0
    0x1aff_ffed, // bne pop
    0xe3a0_0000, // mov r0, #0
    0xe3a0_7001, // mov r7, #1
    0xef00_0000, // svc #0
];

/// The words of its data: the top, fifteen words that are 0, and four nodes, each with the address of the node below and a count.
pub const FOUR_NODES: [u32; 24] = [
    8256, 0, 0, 0, 0, 0, 0, 0, 0, 0, 0, 0, 0, 0, 0, 0, 8264, 0, 8272, 0, 8280, 0, 0, 0,
];

/// In every history of the guest of [`THOUSAND_ROUNDS`] and [`FOUR_NODES`] whose threads have all left with code 0, the stack holds each
/// node once, and together the nodes count every round of every thread.
pub fn four_nodes_come_back()
    ensures each_once { (budget : ℕ) (size : Numbers) (history : List Entry) (ends : List GuestEnd) →
        let program = unit_image (record { words = THOUSAND_ROUNDS; bytes = flat_map (bytes_of 4) FOUR_NODES; space = 0 }) size in
        AreInRange 4 1000 size → IsOutcome a32 program size budget history ends → HaveLeft ends →
        HoldsEachOnce 4 (monitor_after (at_rest_by size.granule program.bytes size.threads) (accesses_of history)).memory }
    ensures all_counted { (budget : ℕ) (size : Numbers) (history : List Entry) (ends : List GuestEnd) →
        let program = unit_image (record { words = THOUSAND_ROUNDS; bytes = flat_map (bytes_of 4) FOUR_NODES; space = 0 }) size in
        AreInRange 4 1000 size → IsOutcome a32 program size budget history ends → HaveLeft ends →
        counts_below (monitor_after (at_rest_by size.granule program.bytes size.threads) (accesses_of history)).memory 4 ≡ size.threads * 1000 }
{}
