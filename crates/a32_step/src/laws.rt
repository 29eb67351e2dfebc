//! The law of an instruction and its replies, a function of no effect whose contract is the law.
ghost use Rattle.std.specs.Prelude.{◌≡◌, ◌↔◌, ℕ, List, Ok};
ghost use Rattle.llsc_base.specs.Images.{Program};
ghost use Rattle.a32_instr.specs.declared.instructions.Instr.{Instr};
ghost use Rattle.a32_instr.specs.State.{State};
ghost use Rattle.a32_instr.specs.Effect.{effect_of};
ghost use Rattle.a32_step.specs.Machine.{instr_at, next_effect, after_next};
ghost use Rattle.guest_core.specs.Machine.{between, moved_on};
ghost use Rattle.a32_step.specs.Replied.{replied_in_turn, AsksForEach, IsAskedForEach};

/// A machine that begins an instruction and is given replies in turn, each to the access that it asked for, does next what
/// the instruction does with all of them at once (`effect`), and stands afterwards as that says (`after`). Until then it has
/// the state in which the instruction began (`start`), and just these replies (`replies`). It asks for each of some replies
/// just where the instruction asks for an access after each beginning of them (`asked`).
pub fn replies_in_turn_are_all_at_once()
    ensures effect { (program : Program) (instr : Instr) (state : State) (replies : List ℕ) →
        instr_at program state.pc ≡ Ok instr → AsksForEach program (between state) replies →
        next_effect program (replied_in_turn program (between state) replies) ≡ effect_of instr program replies state }
    ensures after { (program : Program) (instr : Instr) (state : State) (replies : List ℕ) →
        instr_at program state.pc ≡ Ok instr → AsksForEach program (between state) replies →
        let machine = replied_in_turn program (between state) replies in
        after_next program machine ≡ moved_on instr machine (effect_of instr program replies state) }
    ensures start { (program : Program) (instr : Instr) (state : State) (replies : List ℕ) →
        instr_at program state.pc ≡ Ok instr → AsksForEach program (between state) replies →
        (replied_in_turn program (between state) replies).state ≡ state }
    ensures replies { (program : Program) (instr : Instr) (state : State) (replies : List ℕ) →
        instr_at program state.pc ≡ Ok instr → AsksForEach program (between state) replies →
        (replied_in_turn program (between state) replies).replies ≡ replies }
    ensures asked { (program : Program) (instr : Instr) (state : State) (replies : List ℕ) →
        instr_at program state.pc ≡ Ok instr →
        (AsksForEach program (between state) replies ↔ IsAskedForEach instr program replies state) }
{}
