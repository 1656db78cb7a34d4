// A search through the numbers below a bound.
ghost use Rattle.std.specs.Prelude.{◌≡◌, ◌<◌, ℕ, Bool};
ghost use Rattle.basics.specs.Bounded.{first_that};

// The first number below n that passes a test, n where none does.
pub fn first_that<F: Fn(usize) -> bool>(n: usize, test: F) -> usize
    requires callable { (i : ℕ) → i < n → F.pre test i }
    ensures { (p : ℕ → Bool) → ((i : ℕ) (b : Bool) → i < n → F.post test i b → b ≡ p i) → result ≡ first_that p n }
{
    for i in 0..n {
        if test(i) {
            return i;
        }
    }
    n
}
