//! The greatest common divisor, by Euclid's remainders.
ghost use Rattle.lines.specs.Divisors.{Gcd};

/// The greatest common divisor of two numbers; 0 only for 0 and 0.
pub fn gcd(a: u32, b: u32) -> u32
    ensures { Gcd a b result }
{
    let mut x = a;
    let mut y = b;
    while y != 0 {
        let r = x % y;
        x = y;
        y = r;
    }
    x
}
