// Truth values side by side, as many as a type has room for.
ghost use Rattle.std.specs.Prelude.{◌≡◌, ◌<◌, ℕ, Bool, not, ◌&&◌, ◌||◌};
ghost use Rattle.basics.specs.Bits.{bit};
ghost use Rattle.basics.specs.Limits.{word_size};

pub trait Truth: Copy {
    // How many.
    ghost width: { ℕ };

    // Value j of them.
    ghost value: { Self → ℕ → Bool };

    // The same value everywhere.
    fn all(b: bool) -> Self
        ensures { (j : ℕ) → j < width → value result j ≡ b };

    fn not(self) -> Self
        ensures { (j : ℕ) → j < width → value result j ≡ not (value self j) };

    fn and(self, other: Self) -> Self
        ensures { (j : ℕ) → j < width → value result j ≡ (value self j && value other j) };

    fn or(self, other: Self) -> Self
        ensures { (j : ℕ) → j < width → value result j ≡ (value self j || value other j) };
}

// One.
impl Truth for bool {
    ghost width = { 1 };

    ghost value = { λ b j. b };

    fn all(b: bool) -> bool {
        b
    }

    fn not(self) -> bool {
        !self
    }

    fn and(self, other: bool) -> bool {
        self & other
    }

    fn or(self, other: bool) -> bool {
        self | other
    }
}

// A word of them, value j as bit j.
impl Truth for u64 {
    ghost width = { word_size };

    ghost value = { bit };

    #[tactic(auto, using(crate::proofs::WordBits::bit_largest, basics::proofs::BitsLaws::bit_zero))]
    fn all(b: bool) -> u64 {
        if b { u64::MAX } else { 0 }
    }

    #[tactic(auto, using(crate::proofs::WordBits::bit_bit_not))]
    fn not(self) -> u64 {
        !self
    }

    #[tactic(auto, using(crate::proofs::WordBits::bit_bit_and))]
    fn and(self, other: u64) -> u64 {
        self & other
    }

    #[tactic(auto, using(crate::proofs::WordBits::bit_bit_or))]
    fn or(self, other: u64) -> u64 {
        self | other
    }
}
