// Whether the coefficients of a set are whole, and their whole parts.
#![tactic(auto)]

ghost use Rattle.std.specs.Prelude.{◌≡◌};
ghost use Rattle.complex.specs.Wholes.{parts_of, both_whole};
ghost use Rattle.terms.specs.Keyed.{each};
ghost use Rattle.term_sets.specs.Sets.{held_by};

use complex::Complex;
use complex::whole::whole_part;
use term_sets::Set;
use term_sets::key::Key;

// The whole number that a part is, 0 where it is none.
pub fn parts_of(x: f64) -> i64
    ensures { result ≡ parts_of x }
{
    whole_part(x).unwrap_or(0)
}

// Whether both parts of a coefficient are whole.
fn is_whole(c: Complex) -> bool
    ensures { result ≡ both_whole c }
{
    whole_part(c.re).is_some() && whole_part(c.im).is_some()
}

// Whether every coefficient of a set's terms is.
pub fn all_whole<K: Key>(s: &Set<K, Complex>) -> bool
    ensures { result ≡ each (λ t ts. both_whole t.coefficient) (held_by s.now) }
{
    s.held().iter().all(|t| is_whole(t.coefficient))
}
