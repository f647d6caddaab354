// Complex numbers of two f64, and the size that a coefficient may have.
#![tactic(auto)]

ghost use Rattle.std.specs.Prelude.{◌≡◌};
ghost use Rattle.complex.specs.Complex.{product_of, conjugate_of, part_in_range, is_plus_zero, unit_of_I};

pub mod coefficient;
pub mod whole;

#[derive(Clone, Copy, Default)]
pub struct Complex {
    pub re: f64,
    pub im: f64,
}

// 2^300, the largest size of a coefficient's part.
const LIMIT: f64 =
    2037035976334486086268445688409378161051468393665936250636140449354381299763336706183397376.0;

// Whether a part is a number of size at most 2^300: a NaN fails both comparisons.
pub fn part_in_range(x: f64) -> bool
    ensures { result ≡ part_in_range x }
{
    x <= LIMIT && x >= -LIMIT
}

// Whether a float is +0 and no other value.
pub fn is_plus_zero(x: f64) -> bool
    ensures { result ≡ is_plus_zero x }
{
    x == 0.0 && x.to_bits() == 0
}

// i to the power `power`.
pub fn unit_of_i(power: u8) -> Complex
    ensures { result ≡ unit_of_I power }
{
    match power % 4 {
        0 => Complex { re: 1.0, im: 0.0 },
        1 => Complex { re: 0.0, im: 1.0 },
        2 => Complex { re: -1.0, im: 0.0 },
        _ => Complex { re: 0.0, im: -1.0 },
    }
}

impl Complex {
    // Four products and two sums, each rounded once.
    pub fn product(self, other: Complex) -> Complex
        ensures { result ≡ product_of self other }
    {
        Complex {
            re: self.re * other.re - self.im * other.im,
            im: self.re * other.im + self.im * other.re,
        }
    }

    pub fn conjugate(self) -> Complex
        ensures { result ≡ conjugate_of self }
    {
        Complex {
            re: self.re,
            im: -self.im,
        }
    }
}

// A real number, its second part +0.
impl From<f64> for Complex {
    ghost use Rattle.std.specs.Prelude.{◌≡◌};
    ghost use Rattle.complex.specs.Coefficients.{complex_of};

    ghost from_gives = { λ x z. z ≡ complex_of x };

    fn from(x: f64) -> Complex {
        Complex { re: x, im: 0.0 }
    }
}
