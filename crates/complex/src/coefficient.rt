// What a term's coefficient is: a number with a zero, a sum and a range.
ghost use Rattle.std.specs.Prelude.{◌≡◌};

use crate::{Complex, is_plus_zero, part_in_range};

pub trait Coefficient: Copy {
    ghost use Rattle.complex.specs.Coefficients.{Coefficients, PlusZeroLaws};

    ghost numbers: { Coefficients Self };

    // Zero, +0 in its floats.
    fn zero() -> Self
        ensures { result ≡ numbers.zero };

    // The sum, rounded once in each part.
    fn sum(self, other: Self) -> Self
        ensures { result ≡ numbers.sum self other };

    // Whether every part is +0 or -0.
    fn is_zero(self) -> bool
        ensures { result ≡ numbers.is_zero self };

    // Whether number 5 lets it pass.
    fn in_range(self) -> bool
        ensures { result ≡ numbers.in_range self };

    // Whether every part is +0.
    fn is_plus_zero(self) -> bool
        ensures { result ≡ numbers.is_plus_zero self };

    ghost plus_zero: { PlusZeroLaws numbers };
}

impl Coefficient for f64 {
    ghost use Rattle.complex.specs.Coefficients.{reals};
    ghost use Rattle.complex.specs.PlusZero.{real_plus_zero};

    ghost numbers = { reals };

    ghost plus_zero = { real_plus_zero };

    fn zero() -> f64 {
        0.0
    }

    fn sum(self, other: f64) -> f64 {
        self + other
    }

    fn is_zero(self) -> bool {
        self == 0.0
    }

    fn in_range(self) -> bool {
        part_in_range(self)
    }

    fn is_plus_zero(self) -> bool {
        is_plus_zero(self)
    }
}

impl Coefficient for Complex {
    ghost use Rattle.complex.specs.Coefficients.{complexes};
    ghost use Rattle.complex.specs.PlusZero.{complex_plus_zero};

    ghost numbers = { complexes };

    ghost plus_zero = { complex_plus_zero };

    fn zero() -> Complex {
        Complex { re: 0.0, im: 0.0 }
    }

    #[tactic(auto, unfolding(crate::specs::Complex::sum_of))]
    fn sum(self, other: Complex) -> Complex {
        Complex {
            re: self.re + other.re,
            im: self.im + other.im,
        }
    }

    #[tactic(auto, unfolding(crate::specs::Complex::is_zero))]
    fn is_zero(self) -> bool {
        self.re == 0.0 && self.im == 0.0
    }

    #[tactic(auto, unfolding(crate::specs::Complex::in_range))]
    fn in_range(self) -> bool {
        part_in_range(self.re) && part_in_range(self.im)
    }

    fn is_plus_zero(self) -> bool {
        is_plus_zero(self.re) && is_plus_zero(self.im)
    }
}
