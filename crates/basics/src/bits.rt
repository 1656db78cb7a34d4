// A number from its bits.
ghost use Rattle.std.specs.Prelude.{◌≡◌, ◌<◌, ◌≤◌, ℕ, Bool};
ghost use Rattle.basics.specs.Bits.{from_bits};
ghost use Rattle.basics.specs.Lists.{tabulate};

// The number of n bits, a byte at most, whose bit j is what `bit` answers at j.
pub fn from_bits<F: Fn(usize) -> bool>(n: usize, bit: F) -> u8
    requires few { n ≤ 8 }
    requires callable { (j : ℕ) → j < n → F.pre bit j }
    ensures { (f : ℕ → Bool) → ((j : ℕ) (b : Bool) → j < n → F.post bit j b → b ≡ f j) → result ≡ from_bits (tabulate n f) }
{
    let mut x: u8 = 0;
    for j in (0..n).rev() {
        x = x * 2 + bit(j) as u8;
    }
    x
}
