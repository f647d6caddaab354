// The numbers of rows.
ghost use Rattle.std.specs.Prelude.{◌≡◌};
ghost use Rattle.rows.specs.HalfUnits.{minus_half_unit};

use complex::Complex;
use complex::coefficient::Coefficient;

pub trait Number: Copy + Default {
    ghost use Rattle.std.specs.Prelude.{◌≡◌};
    ghost use Rattle.master_equation.specs.Numbers.{Numbers};

    ghost numbers: { Numbers Self Self };

    // i to the power `power`, times the number.
    fn scaled(self, power: u8) -> Self
        ensures { result ≡ numbers.scaled power self };

    // -1/2 times i to the power `power`, times the number.
    fn minus_half(self, power: u8) -> Self
        ensures { result ≡ numbers.minus_half power self };

    // The sum.
    fn sum(self, other: Self) -> Self
        ensures { result ≡ numbers.sum self other };

    // Whether it counts as zero.
    fn is_zero(self) -> bool
        ensures { result ≡ numbers.is_zero self };
}

// A number of two parts, as they are delivered.
pub trait Parts<P>: Number {
    ghost use Rattle.std.specs.Prelude.{◌≡◌};
    ghost use Rattle.rows.specs.Buffers.{TwoParts};

    ghost parts: { TwoParts Self P };

    fn re(self) -> P
        ensures { result ≡ parts.re self };

    fn im(self) -> P
        ensures { result ≡ parts.im self };
}

// -1/2 times i to the power `power`.
fn minus_half_unit(power: u8) -> Complex
    ensures { result ≡ minus_half_unit power }
{
    let u = complex::unit_of_i(power);
    Complex {
        re: -0.5 * u.re,
        im: -0.5 * u.im,
    }
}

// In f64, each operation rounded once.
impl Number for Complex {
    ghost use Rattle.rows.specs.Floats.{floats};

    ghost numbers = { floats };

    fn scaled(self, power: u8) -> Complex {
        self.product(complex::unit_of_i(power))
    }

    fn minus_half(self, power: u8) -> Complex {
        self.product(minus_half_unit(power))
    }

    fn sum(self, other: Complex) -> Complex {
        Coefficient::sum(self, other)
    }

    fn is_zero(self) -> bool {
        Coefficient::is_zero(self)
    }
}

impl Parts<f64> for Complex {
    ghost use Rattle.rows.specs.Buffers.{float_parts};

    ghost parts = { float_parts };

    fn re(self) -> f64 {
        self.re
    }

    fn im(self) -> f64 {
        self.im
    }
}
