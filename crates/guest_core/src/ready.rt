//! Instructions that are kept ready, so that their words needn't be decoded again.
ghost use Rattle.std.specs.Prelude.{◌≡◌, ℕ, Bool, IfSome, Ok, Result, Some, true, false};
ghost use Rattle.llsc_base.specs.Images.{Program, word_at};
ghost use Rattle.llsc_base.specs.declared.outside.Stop.{Stop};

/// An instruction of a set as its cores keep it ready, made of its word, or one that wasn't met yet.
pub trait Ready: Copy + Send {
    /// What a word means: an instruction of the set.
    ghost Meaning: { Type 0 };

    /// The instruction at an address, or the stop where there is none.
    ghost found: { Program → ℕ → Result Meaning Stop };

    /// The instruction that is kept ready.
    ghost instr: { Self → Meaning };

    /// Whether it was met.
    ghost is_met: { Self → Bool };

    /// Whether all else that is kept of it is right.
    ghost is_right: { Self → Type 0 };

    /// One that wasn't met.
    fn unmet() -> Self
        ensures { is_met result ≡ false };

    /// Whether it was met.
    fn is_met(&self) -> bool
        ensures { result ≡ is_met self.now };

    /// The instruction of a word, if it is the word of one.
    fn of_word(word: u32) -> Option<Self>
        ensures met { IfSome result (λ ready. is_met ready ≡ true) }
        ensures right { IfSome result is_right }
        ensures found { IfSome result (λ ready. (program : Program) (addr : ℕ) → word_at program addr ≡ Some word → found program addr ≡ Ok (instr ready)) };
}
