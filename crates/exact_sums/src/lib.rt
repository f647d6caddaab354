// Whole numbers counted in halves, in signed 64-bit parts, as the numbers of rows.
#![tactic(auto)]

ghost use Rattle.std.specs.Prelude.{◌≡◌, map};
ghost use Rattle.rows.specs.Entries.{contributions_of};
ghost use Rattle.exact_sums.specs.ExactSums.{whole, within, largest_contribution, exact_answer};
ghost use Rattle.exact_sums.specs.Exact.{exact_pair, said_exact};
ghost use Rattle.exact_sums.specs.Wrapped.{turned};

use refusal::Refusal;
use rows::number::{Number, Parts};
use rows::{Contributions, Row};

// 2^52, the largest part of a contribution.
const LARGEST_CONTRIBUTION: u64 = 4503599627370496;

// A number of halves; or, as a coefficient, a whole number.
#[derive(Clone, Copy, Default)]
pub struct Halves {
    pub re: i64,
    pub im: i64,
}

impl Halves {
    // i to the power `power`, times the number.
    fn turned(self, power: u8) -> Halves
        ensures { result ≡ turned power self }
    {
        match power % 4 {
            0 => self,
            1 => Halves {
                re: self.im.wrapping_neg(),
                im: self.re,
            },
            2 => Halves {
                re: self.re.wrapping_neg(),
                im: self.im.wrapping_neg(),
            },
            _ => Halves {
                re: self.im,
                im: self.re.wrapping_neg(),
            },
        }
    }

    // Whether both parts are at most 2^52 in size, so that the sum of 320 such numbers fits 64 bits.
    #[tactic(auto, unfolding(crate::specs::ExactSums::within))]
    fn is_small(self) -> bool
        ensures { result ≡ within largest_contribution (whole self.re self.im) }
    {
        self.re.unsigned_abs() <= LARGEST_CONTRIBUTION
            && self.im.unsigned_abs() <= LARGEST_CONTRIBUTION
    }
}

// The exact row of contributions, which zero sums are left out of. One with a part over 2^52 in size is refused.
pub fn row(all: &Contributions<Halves>) -> Result<Row<Halves>, Refusal>
    ensures { said_exact result ≡ exact_answer (map exact_pair (contributions_of all.now)) }
{
    if !all.entries().iter().all(|e| e.value.is_small()) {
        return Err(Refusal::Malformed);
    }
    Ok(all.row(false))
}

// Each operation wraps around at 64 bits; of small numbers none does (`ExactLaws`).
impl Number for Halves {
    ghost use Rattle.exact_sums.specs.Wrapped.{wrapped};

    ghost numbers = { wrapped };

    // In halves: doubled.
    fn scaled(self, power: u8) -> Halves {
        let z = self.turned(power);
        z.sum(z)
    }

    // In halves: negated.
    fn minus_half(self, power: u8) -> Halves {
        let z = self.turned(power);
        Halves {
            re: z.re.wrapping_neg(),
            im: z.im.wrapping_neg(),
        }
    }

    fn sum(self, other: Halves) -> Halves {
        Halves {
            re: self.re.wrapping_add(other.re),
            im: self.im.wrapping_add(other.im),
        }
    }

    fn is_zero(self) -> bool {
        self.re == 0 && self.im == 0
    }
}

impl Parts<i64> for Halves {
    ghost use Rattle.exact_sums.specs.Wrapped.{halves_parts};

    ghost parts = { halves_parts };

    fn re(self) -> i64 {
        self.re
    }

    fn im(self) -> i64 {
        self.im
    }
}
