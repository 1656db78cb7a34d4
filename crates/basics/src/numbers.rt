// Numbers from their digits in base ten.
ghost use Rattle.std.specs.Prelude.{◌≡◌, Some};
ghost use Rattle.basics.specs.Numbers.{number_in, with_digit, number_below};

// Numbers are below this.
const NUMBER_LIMIT: usize = 65536;

// A number with one digit more.
fn with_digit(n: usize, b: u8) -> Option<usize>
    ensures { result ≡ with_digit (Some n) b }
{
    if n < NUMBER_LIMIT && b >= b'0' && b <= b'9' {
        let m = n * 10 + (b - b'0') as usize;
        if m < NUMBER_LIMIT {
            return Some(m);
        }
    }
    None
}

// The number that one or more decimal digits stand for, below 65,536. There is none for no digits, any other byte or a larger number; leading
// zeros are allowed.
pub fn number_in(digits: &[u8]) -> Option<usize>
    ensures { result ≡ number_in digits.now }
{
    if digits.len() == 0 {
        return None;
    }
    let mut n = 0;
    for &digit in digits {
        n = with_digit(n, digit)?;
    }
    Some(n)
}

// The same number where it is below a limit; else 0.
pub fn number_below(digits: &[u8], limit: usize) -> usize
    ensures { result ≡ number_below limit digits.now }
{
    match number_in(digits) {
        Some(n) if n < limit => n,
        _ => 0,
    }
}
