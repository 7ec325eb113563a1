ghost use Rattle.std.specs.Prelude.{◌≡◌, ◌*ℤ◌, IfSome};

use crate::wide::narrow_product;

/// A denominator, with what its multiples are divided by it: how often it is halved until it is odd, and the number
/// that times its odd part is 1, modulo 2 ^ 64 (Jebelean, 1993).
#[derive(Clone, Copy)]
pub(crate) struct Divisor {
    pub(crate) denominator: i128,
    halvings: u32,
    inverse: i64,
}

// The number that times an odd one is 1, modulo 2 ^ 64. Each turn doubles the number of bits that are right, of which
// the odd number itself has three.
fn inverse_of(odd: i64) -> i64 {
    let mut inverse = odd;
    for _ in 0..5 {
        inverse = inverse.wrapping_mul(2_i64.wrapping_sub(odd.wrapping_mul(inverse)));
    }
    inverse
}

impl Divisor {
    // A denominator. One that has more than 64 bits divides as 1 would, and so no quotient by it is told.
    pub(crate) fn of(denominator: i128) -> Divisor
        ensures { result.denominator ≡ denominator }
    {
        let narrow = i64::try_from(denominator).unwrap_or(1);
        let halvings = narrow.trailing_zeros() % 64;
        Divisor {
            denominator,
            halvings,
            inverse: inverse_of(narrow >> halvings),
        }
    }

    // The quotient of a number, where it is a multiple of the denominator and both have at most 64 bits. It is made
    // without a division, and told only where the denominator times it is the number.
    #[inline(always)]
    pub(crate) fn quotient(&self, value: i128) -> Option<i128>
        ensures { IfSome result (λ quotient. self.now.denominator *ℤ quotient ≡ value) }
    {
        let (Ok(narrow), Ok(denominator)) = (i64::try_from(value), i64::try_from(self.denominator))
        else {
            return None;
        };
        let quotient = (narrow >> (self.halvings % 64)).wrapping_mul(self.inverse);
        if narrow_product(denominator, quotient) == value {
            Some(i128::from(quotient))
        } else {
            None
        }
    }
}
