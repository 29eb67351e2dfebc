//! Worked operands, computed by the definitions.
ghost use Rattle.std.specs.Prelude.{◌≡◌, ◌∷◌, [], Some, None, codes};
ghost use Rattle.a32_forms.specs.Text.{Mark, Word, parts};
ghost use Rattle.a32_forms.specs.Forms.{chosen};

/// Words and marks: blanks part words and are passed over, and a word is as long as it can be.
pub fn worked_parts()
    ensures a_call { parts (codes "svc#0") ≡ Word (codes "svc") ∷ Mark 35 ∷ Word (codes "0") ∷ [] }
    ensures a_shift { parts (codes " r1,  1lsl") ≡ Word (codes "r1") ∷ Mark 44 ∷ Word (codes "1lsl") ∷ [] }
{}

/// Operands of the forms that they have, with the numbers of the signs and the name of a label.
pub fn worked_operands()
    ensures before_the_base { chosen (codes "r, [r]|r, [r, #~n]!|r, [r], #~n") (parts (codes "r1, [sp ,#-0x1F] !"))
        ≡ Some (record { form = 1; fields = record { numbers = 1 ∷ 13 ∷ 1 ∷ 31 ∷ 1 ∷ []; name = [] } }) }
    ensures behind_the_base { chosen (codes "r, [r]|r, [r, #~n]!|r, [r], #~n") (parts (codes "r1, [ lr ] , # 007"))
        ≡ Some (record { form = 2; fields = record { numbers = 1 ∷ 14 ∷ 0 ∷ 7 ∷ []; name = [] } }) }
    ensures too_great { chosen (codes "r, [r]|r, [r, #~n]!|r, [r], #~n") (parts (codes "r2, [pc, #4294967296]"))
        ≡ Some (record { form = 1; fields = record { numbers = 2 ∷ 15 ∷ 0 ∷ 4294967296 ∷ 0 ∷ []; name = [] } }) }
    ensures a_list { chosen (codes "r!, {b}") (parts (codes "sp!, {r0, r2-r4, lr}"))
        ≡ Some (record { form = 0; fields = record { numbers = 13 ∷ 1 ∷ 16413 ∷ []; name = [] } }) }
    ensures a_label { chosen (codes "r, #n|r, #L(l)") (parts (codes "r3, #lo(far_away)"))
        ≡ Some (record { form = 1; fields = record { numbers = 3 ∷ []; name = codes "far_away" } }) }
    ensures a_shift { chosen (codes "r, k #n|r, X") (parts (codes "r3, rrx"))
        ≡ Some (record { form = 1; fields = record { numbers = 3 ∷ []; name = [] } }) }
{}

/// Operands that have none of the forms.
pub fn refused_operands()
    ensures something_left { chosen (codes "r, [r]") (parts (codes "r1, [r2], r3")) ≡ None }
    ensures other_prefix { chosen (codes "r, #n") (parts (codes "r1, #0X1")) ≡ None }
    ensures no_name { chosen (codes "r, #L(l)") (parts (codes "r1, #lo(1x)")) ≡ None }
    ensures falling { chosen (codes "{b}") (parts (codes "{r4-r3}")) ≡ None }
    ensures twice { chosen (codes "{b}") (parts (codes "{r3, r3}")) ≡ None }
    ensures empty { chosen (codes "{b}") (parts (codes "{}")) ≡ None }
{}
