//! Worked words as they are shown.
ghost use Rattle.std.specs.Prelude.{codes};
ghost use Rattle.a32_syntax.specs.WorkedShown.{IsShownAs};

/// Words of each class of instructions are shown as these texts, computed by the definitions.
pub fn worked_showings()
    ensures adds { IsShownAs 0xE2900001 0 (codes "adds r0, r0, #1") }
    ensures turns { IsShownAs 0xE3A01A02 0 (codes "mov r1, #8192") }
    ensures reverses { IsShownAs 0xE2603001 0 (codes "rsb r3, r0, #1") }
    ensures shifts_right { IsShownAs 0xE1A0AE24 0 (codes "mov r10, r4, lsr #28") }
    ensures shifts_left { IsShownAs 0xE089A18A 0 (codes "add r10, r9, r10, lsl #3") }
    ensures shifts_by_32 { IsShownAs 0xE1A00021 0 (codes "mov r0, r1, lsr #32") }
    ensures shifts_through_carry { IsShownAs 0xE1B00061 0 (codes "movs r0, r1, rrx") }
    ensures shifts_by_register { IsShownAs 0xE1F01352 0 (codes "mvns r1, r2, asr r3") }
    ensures compares { IsShownAs 0x03510003 0 (codes "cmpeq r1, #3") }
    ensures least_turn { IsShownAs 0xE3A00F41 0 (codes "mov r0, #260") }
    ensures other_turn { IsShownAs 0xE3A00F04 0 (codes "mov r0, #4, #30") }
    ensures moves_wide { IsShownAs 0xE306560D 0 (codes "movw r5, #26125") }
    ensures moves_top { IsShownAs 0xE3405019 0 (codes "movt r5, #25") }
    ensures multiplies { IsShownAs 0xE0246594 0 (codes "mla r4, r4, r5, r6") }
    ensures multiplies_long { IsShownAs 0xE0F21493 0 (codes "smlals r1, r2, r3, r4") }
    ensures loads { IsShownAs 0xE7921183 0 (codes "ldr r1, [r2, r3, lsl #3]") }
    ensures stores { IsShownAs 0xE7821180 0 (codes "str r1, [r2, r0, lsl #3]") }
    ensures loads_byte { IsShownAs 0xE4D10001 0 (codes "ldrb r0, [r1], #1") }
    ensures writes_back { IsShownAs 0xE52DE004 0 (codes "str lr, [sp, #-4]!") }
    ensures takes_0 { IsShownAs 0xE5110000 0 (codes "ldr r0, [r1, #-0]") }
    ensures adds_0 { IsShownAs 0xE5910000 0 (codes "ldr r0, [r1]") }
    ensures loads_half { IsShownAs 0xE1D101B2 0 (codes "ldrh r0, [r1, #18]") }
    ensures loads_signed_byte { IsShownAs 0xE11540D6 0 (codes "ldrsb r4, [r5, -r6]") }
    ensures loads_block { IsShownAs 0xE8BD8010 0 (codes "ldmia sp!, {r4, pc}") }
    ensures stores_block { IsShownAs 0xE881003C 0 (codes "stmia r1, {r2, r3, r4, r5}") }
    ensures branches { IsShownAs 0x1AFFFFFC 0x1010 (codes "bne 0x00001008") }
    ensures branches_below_0 { IsShownAs 0xEBFFFFFC 0 (codes "bl 0xfffffff8") }
    ensures returns { IsShownAs 0xE12FFF1E 0 (codes "bx lr") }
    ensures calls { IsShownAs 0xEF000000 0 (codes "svc #0") }
    ensures counts { IsShownAs 0xE16F0F11 0 (codes "clz r0, r1") }
    ensures turns_round { IsShownAs 0xE6BF0F31 0 (codes "rev r0, r1") }
    ensures extends { IsShownAs 0xE6EF0471 0 (codes "uxtb r0, r1, ror #8") }
    ensures loads_exclusive { IsShownAs 0xE19ABF9F 0 (codes "ldrex r11, [r10]") }
    ensures loads_two { IsShownAs 0xE1B12F9F 0 (codes "ldrexd r2, r3, [r1]") }
    ensures stores_exclusive { IsShownAs 0xE18ACF9B 0 (codes "strex r12, r11, [r10]") }
    ensures clears { IsShownAs 0xF57FF01F 0 (codes "clrex") }
    ensures waits { IsShownAs 0xF57FF05F 0 (codes "dmb #15") }
{}
