//! Worked texts.
ghost use Rattle.std.specs.Prelude.{codes};
ghost use Rattle.a32_syntax.specs.Worked.{IsReadAs};

/// Texts of each class of instructions are read as the instructions of these words, computed by the definitions.
pub fn worked_instructions()
    ensures adds { IsReadAs 0 (codes "adds") (codes "r0, r0, #1") 0xE2900001 }
    ensures turns { IsReadAs 0 (codes "mov") (codes "r1, #8192") 0xE3A01A02 }
    ensures reverses { IsReadAs 0 (codes "rsb") (codes "r3, r0, #1") 0xE2603001 }
    ensures shifts_right { IsReadAs 0 (codes "mov") (codes "r10, r4, lsr #28") 0xE1A0AE24 }
    ensures shifts_left { IsReadAs 0 (codes "add") (codes "r10, r9, r10, lsl #3") 0xE089A18A }
    ensures moves_wide { IsReadAs 0 (codes "movw") (codes "r5, #26125") 0xE306560D }
    ensures moves_top { IsReadAs 0 (codes "movt") (codes "r5, #25") 0xE3405019 }
    ensures multiplies { IsReadAs 0 (codes "mla") (codes "r4, r4, r5, r6") 0xE0246594 }
    ensures loads { IsReadAs 0 (codes "ldr") (codes "r1, [r2, r3, lsl #3]") 0xE7921183 }
    ensures stores { IsReadAs 0 (codes "str") (codes "r1, [r2, r0, lsl #3]") 0xE7821180 }
    ensures loads_half { IsReadAs 0 (codes "ldrh") (codes "r0, [r1, #18]") 0xE1D101B2 }
    ensures loads_block { IsReadAs 0 (codes "ldmia") (codes "sp!, {r4, pc}") 0xE8BD8010 }
    ensures stores_block { IsReadAs 0 (codes "stmia") (codes "r1, {r2, r3, r4, r5}") 0xE881003C }
    ensures branches { IsReadAs 0x1010 (codes "bne") (codes "0x00001008") 0x1AFFFFFC }
    ensures returns { IsReadAs 0 (codes "bx") (codes "lr") 0xE12FFF1E }
    ensures counts { IsReadAs 0 (codes "clz") (codes "r0, r1") 0xE16F0F11 }
    ensures turns_round { IsReadAs 0 (codes "rev") (codes "r0, r1") 0xE6BF0F31 }
    ensures extends { IsReadAs 0 (codes "uxtb") (codes "r0, r1, ror #8") 0xE6EF0471 }
    ensures loads_exclusive { IsReadAs 0 (codes "ldrex") (codes "r11, [r10]") 0xE19ABF9F }
    ensures stores_exclusive { IsReadAs 0 (codes "strex") (codes "r12, r11, [r10]") 0xE18ACF9B }
    ensures clears { IsReadAs 0 (codes "clrex") (codes "") 0xF57FF01F }
    ensures waits { IsReadAs 0 (codes "dmb") (codes "#15") 0xF57FF05F }
{}
