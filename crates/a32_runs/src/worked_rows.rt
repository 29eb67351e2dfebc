//! Worked cases of what the laws of the instruction table say of its rows.
ghost use Rattle.std.specs.Prelude.{◌≡◌, ◌∷◌, [], Ok, Err};
ghost use Rattle.a32_instr.specs.Table.{clrex, AreApart, FitsNone, MeansItsRow};

use a32_instr::Instr;
use llsc_base::DecodeFault;

/// A row isn't apart from itself; and a word that fits a row doesn't fit none, is neither undefined nor unpredictable where the row
/// isn't, and means nothing else than what the row says. The row is that of CLREX.
pub fn rows_that_are_not_apart()
    ensures not_apart { ¬ AreApart clrex clrex }
    ensures fits_one { ¬ FitsNone (clrex ∷ []) 0xF57FF01F }
    ensures not_undefined { ¬ MeansItsRow (clrex ∷ []) 0xF57FF01F (Err DecodeFault.Undefined) }
    ensures not_unpredictable { ¬ MeansItsRow (clrex ∷ []) 0xF57FF01F (Err DecodeFault.Unpredictable) }
    ensures another { ¬ MeansItsRow (clrex ∷ []) 0xF57FF01F (Ok (Instr.Nop 14)) }
{}
