//! Laws of the instruction table, each proved for every word, and of the machine.
ghost use Rattle.std.specs.Prelude.{◌≡◌, ◌≢◌, ◌==◌, ◌<◌, ◌∷◌, [], ℕ, length, List, AllPairs, IsTrue, pos, negsuc};
ghost use Rattle.std.specs.List.{list_all};
ghost use Rattle.llsc_base.specs.Images.{Program};
ghost use Rattle.llsc_base.specs.Bits.{width_of};
ghost use Rattle.llsc_base.specs.declared.outside.Ask.{Ask};
ghost use Rattle.llsc_base.specs.declared.outside.Stop.{Stop};
ghost use Rattle.llsc_base.specs.Effects.{asks, stops};
ghost use Rattle.llsc_base.specs.Sizes.{Numbers};
ghost use Rattle.history.specs.declared.entry.Entry.{Entry};
ghost use Rattle.guest_calls.specs.Run.{Pair, Ends, Asks};
ghost use Rattle.guest_thread.specs.Outcome.{IsOutcome};
ghost use Rattle.guest_thread.specs.declared.ends.GuestEnd.{GuestEnd};
ghost use Rattle.guest_core.specs.Machine.{next_of, GoesOn, GoesOnWith, PassesTests};
ghost use Rattle.rv32_guest.specs.Machine.{Machine, rv32};
ghost use Rattle.rv32_guest.specs.Stops.{IsStop};
ghost use Rattle.rv32_guest.specs.Table.{table, ecall, meaning, AreApart, FitsNone, MeansItsRow};

use crate::instructions::RvInstr;
use llsc_base::DecodeFault;

/// Each row of the table has 32 bits.
pub fn rows_have_32_bits()
    ensures { IsTrue (list_all (λ row. width_of row.bits == 32) table) }
{}

/// No word fits two rows of the table, so the order of the rows is of no account.
pub fn no_word_fits_two_rows()
    ensures { AllPairs AreApart table }
{}

/// The two cases of a word: undefined, which is just where it fits no row; and where it fits one, the instruction that the row
/// says. None is unpredictable.
pub fn words_have_two_cases()
    ensures undefined { (word : ℕ) → FitsNone table word → meaning table word ≡ Err DecodeFault.Undefined }
    ensures fits_none { (word : ℕ) → meaning table word ≡ Err DecodeFault.Undefined → FitsNone table word }
    ensures by_its_row { (word : ℕ) → MeansItsRow table word (meaning table word) }
    ensures predictable { (word : ℕ) → meaning table word ≢ Err DecodeFault.Unpredictable }
{}

/// A row isn't apart from itself; and a word that fits a row doesn't fit none, is not undefined, and means nothing else than what the row
/// says.
pub fn rows_that_are_not_apart()
    ensures not_apart { ¬ AreApart ecall ecall }
    ensures fits_one { ¬ FitsNone (ecall ∷ []) 0x00000073 }
    ensures not_undefined { ¬ MeansItsRow (ecall ∷ []) 0x00000073 (Err DecodeFault.Undefined) }
    ensures another { ¬ MeansItsRow (ecall ∷ []) 0x00000073 (Ok RvInstr.Fence) }
{}

/// Worked words of computing and of upper immediates: `lui x6, 2`, `auipc x7, 0xfffff`, `addi x1, x2, -5`,
/// `slti x3, x4, -2048`, `sltiu x3, x4, 2047`, `srai x1, x2, 7`, `sub x31, x30, x29` and `sra x1, x2, x3`.
#[tactic(auto, unfolding(crate::specs::Table::meaning, crate::specs::Immediates::signed_field))]
pub fn meanings_of_computations()
    ensures upper { meaning table 0x00002337 ≡ Ok (RvInstr.Lui 6 0x2000) }
    ensures upper_pc { meaning table 0xFFFFF397 ≡ Ok (RvInstr.Auipc 7 0xFFFFF000) }
    ensures adds { meaning table 0xFFB10093 ≡ Ok (RvInstr.Addi 1 2 (negsuc 4)) }
    ensures less { meaning table 0x80022193 ≡ Ok (RvInstr.Slti 3 4 (negsuc 2047)) }
    ensures less_unsigned { meaning table 0x7FF23193 ≡ Ok (RvInstr.Sltiu 3 4 (pos 2047)) }
    ensures shifts { meaning table 0x40715093 ≡ Ok (RvInstr.Srai 1 2 7) }
    ensures subtracts { meaning table 0x41DF0FB3 ≡ Ok (RvInstr.Sub 31 30 29) }
    ensures shifts_by_register { meaning table 0x403150B3 ≡ Ok (RvInstr.Sra 1 2 3) }
{}

/// Worked words of jumps and branches: `jalr x1, -4(x5)`, `jal x1, .-12`, `jal x0, .+2032`, `bge x3, x4, .-4`,
/// `blt x7, x8, .+2028` and `bgeu x1, x2, .-16`.
#[tactic(auto, unfolding(crate::specs::Table::meaning, crate::specs::Immediates::signed_field))]
pub fn meanings_of_jumps()
    ensures by_register { meaning table 0xFFC280E7 ≡ Ok (RvInstr.Jalr 1 5 (negsuc 3)) }
    ensures back { meaning table 0xFF5FF0EF ≡ Ok (RvInstr.Jal 1 (negsuc 11)) }
    ensures forward { meaning table 0x7F00006F ≡ Ok (RvInstr.Jal 0 (pos 2032)) }
    ensures branches_back { meaning table 0xFE41DEE3 ≡ Ok (RvInstr.Bge 3 4 (negsuc 3)) }
    ensures branches { meaning table 0x7E83C663 ≡ Ok (RvInstr.Blt 7 8 (pos 2028)) }
    ensures branches_unsigned { meaning table 0xFE20F8E3 ≡ Ok (RvInstr.Bgeu 1 2 (negsuc 15)) }
{}

/// Worked words of memory and the environment: `lb x1, -1(x2)`, `lhu x1, -2048(x2)`, `sh x1, -2048(x2)`, `sw x31, 2047(x2)`,
/// `lr.w x5, (x6)`, `sc.w x7, x8, (x6)`, `fence` and `ecall`; and words that are undefined: EBREAK, an AMOADD.W, a compressed
/// instruction, and 0.
#[tactic(auto, unfolding(crate::specs::Table::meaning, crate::specs::Immediates::signed_field))]
pub fn meanings_of_accesses()
    ensures loads_byte { meaning table 0xFFF10083 ≡ Ok (RvInstr.Lb 1 2 (negsuc 0)) }
    ensures loads_half { meaning table 0x80015083 ≡ Ok (RvInstr.Lhu 1 2 (negsuc 2047)) }
    ensures stores_half { meaning table 0x80111023 ≡ Ok (RvInstr.Sh 2 1 (negsuc 2047)) }
    ensures stores_word { meaning table 0x7FF12FA3 ≡ Ok (RvInstr.Sw 2 31 (pos 2047)) }
    ensures reserves { meaning table 0x100322AF ≡ Ok (RvInstr.LrW 5 6) }
    ensures stores_conditionally { meaning table 0x188323AF ≡ Ok (RvInstr.ScW 7 6 8) }
    ensures fences { meaning table 0x0FF0000F ≡ Ok RvInstr.Fence }
    ensures calls { meaning table 0x00000073 ≡ Ok RvInstr.Ecall }
    ensures breakpoint { meaning table 0x00100073 ≡ Err DecodeFault.Undefined }
    ensures atomic { meaning table 0x005323AF ≡ Err DecodeFault.Undefined }
    ensures compressed { meaning table 0x00000001 ≡ Err DecodeFault.Undefined }
    ensures zero { meaning table 0 ≡ Err DecodeFault.Undefined }
{}

/// An access that a machine asks for next has passed its tests, and its instruction has had fewer than 16 replies; and a stop
/// that it comes to is one that an instruction makes.
pub fn machines_are_sound()
    ensures passes { (program : Program) (machine : Machine) (asked : Ask) → GoesOn machine.phase →
        next_of rv32 program machine ≡ asks asked → PassesTests program asked }
    ensures room { (program : Program) (machine : Machine) (asked : Ask) → GoesOnWith machine.phase machine.replies →
        next_of rv32 program machine ≡ asks asked → length machine.replies < 16 }
    ensures own { (program : Program) (machine : Machine) (why : Stop) → GoesOn machine.phase →
        next_of rv32 program machine ≡ stops why → IsStop why }
{}

/// No run of a thread ends for want of a write in a class, which is for memory to answer, nor as threads of other instructions do: at
/// Thumb code or at a word whose effect is left open.
pub fn runs_end_by_their_own_stops()
    ensures { (program : Program) (budget : ℕ) (start : Machine) (pairs : List Pair) (stop : Stop) (steps : ℕ) (output : List ℕ) → GoesOn start.phase →
        Ends rv32 program budget start pairs stop steps output → IsStop stop }
{}

/// These three are no stops of such threads.
pub fn stops_that_are_no_threads_own()
    ensures thumb { (addr : ℕ) → ¬ IsStop (Stop.Thumb addr) }
    ensures unpredictable { (addr : ℕ) → ¬ IsStop (Stop.Unpredictable addr) }
    ensures limit { (addr : ℕ) → ¬ IsStop (Stop.TagLimit addr) }
{}

/// A history has one outcome at most.
pub fn histories_have_one_outcome()
    ensures { (program : Program) (size : Numbers) (budget : ℕ) (history : List Entry) (ends others : List GuestEnd) →
        IsOutcome rv32 program size budget history ends → IsOutcome rv32 program size budget history others → ends ≡ others }
{}

/// A guest thread that starts so, with this budget and these accesses and replies, has one end at most, asks one access next at
/// most, and doesn't ask where it has ended.
pub fn runs_are_one()
    ensures end { (program : Program) (budget : ℕ) (start : Machine) (pairs : List Pair) (stop other : Stop) (steps count : ℕ) (output text : List ℕ) →
        Ends rv32 program budget start pairs stop steps output → Ends rv32 program budget start pairs other count text →
        (stop ≡ other) × (steps ≡ count) × (output ≡ text) }
    ensures ask { (program : Program) (budget : ℕ) (start : Machine) (pairs : List Pair) (ask other : Ask) →
        Asks rv32 program budget start pairs ask → Asks rv32 program budget start pairs other → ask ≡ other }
    ensures ends { (program : Program) (budget : ℕ) (start : Machine) (pairs : List Pair) (ask : Ask) (stop : Stop) (steps : ℕ) (output : List ℕ) →
        Asks rv32 program budget start pairs ask → Ends rv32 program budget start pairs stop steps output → ⊥ }
{}
