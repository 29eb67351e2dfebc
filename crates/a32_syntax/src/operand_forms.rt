//! The forms of the operands of each operation, in the order in which they are tried.
ghost use Rattle.std.specs.Prelude.{◌≡◌, IsTrue};
ghost use Rattle.a32_forms.specs.Within.{have_room};
ghost use Rattle.a32_syntax.specs.Operands.{load_exclusive_operands, operands_of, store_exclusive_operands, word_operands};

use crate::operations::Operation;
use a32_instr::AluOp;
use llsc_base::Size;

fn alu_operands(op: AluOp) -> &'static [u8]
    ensures { result.now ≡ operands_of (Operation.Alu op) }
{
    if op.is_compare() || op.is_move() {
        return b"r, #n|r, #n, #n|r, r|r, r, k #n|r, r, X|r, r, k r";
    }
    b"r, r, #n|r, r, #n, #n|r, r, r|r, r, r, k #n|r, r, r, X|r, r, r, k r"
}

fn word_operands() -> &'static [u8]
    ensures { result.now ≡ word_operands }
{
    b"r, [r]|r, [r, #~n]!|r, [r, ~r]!|r, [r, ~r, k #n]!|r, [r, ~r, X]!|r, [r], #~n|r, [r], ~r|r, [r], ~r, k #n|r, [r], ~r, X"
}

fn load_exclusive_operands(size: Size) -> &'static [u8]
    ensures { result.now ≡ load_exclusive_operands size }
{
    match size {
        Size::B8 => b"r, r, [r]",
        _ => b"r, [r]",
    }
}

fn store_exclusive_operands(size: Size) -> &'static [u8]
    ensures { result.now ≡ store_exclusive_operands size }
{
    match size {
        Size::B8 => b"r, r, r, [r]",
        _ => b"r, r, [r]",
    }
}

/// The forms of an operation's operands, with `|` between.
pub(crate) fn operands_of(operation: Operation) -> &'static [u8]
    ensures forms { result.now ≡ operands_of operation }
    ensures room { IsTrue (have_room result.now) }
{
    match operation {
        Operation::Alu(op) => alu_operands(op),
        Operation::Movw => b"r, #n|r, #L(l)",
        Operation::Movt => b"r, #n|r, #H(l)",
        Operation::Nop | Operation::Yield | Operation::Clrex => b"",
        Operation::Mul => b"r, r, r",
        Operation::Mla | Operation::Mls | Operation::Long(_) => b"r, r, r, r",
        Operation::Clz | Operation::Rev => b"r, r",
        Operation::Extend { .. } => b"r, r|r, r, O #n",
        Operation::Word { .. } => word_operands(),
        Operation::Half(_) => b"r, [r]|r, [r, #~n]!|r, [r, ~r]!|r, [r], #~n|r, [r], ~r",
        Operation::Block { .. } => b"r!, {b}",
        Operation::Branch { .. } => b"x|l",
        Operation::BranchReg { .. } => b"r",
        Operation::Svc => b"#n",
        Operation::LoadEx(size) => load_exclusive_operands(size),
        Operation::StoreEx(size) => store_exclusive_operands(size),
        Operation::Barrier(_) => b"#n|",
    }
}
