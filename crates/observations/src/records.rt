// Whether two records are the same in every place, those past the counts too: parts to the bit, or as numbers, where +0 equals -0.
ghost use Rattle.std.specs.Prelude.{◌≡◌, Bool};
ghost use Rattle.observations.specs.Records.{bits_of, same_lists};

use spins::{
    Alphabet, Complex, Items, Operator, PauliHamiltonian, PauliLindbladNoiseOperator,
    PauliLindbladOpenSystem, Set, Term,
};

// The bits of a float; those of all NaN alike.
pub fn bits(x: f64) -> u64
    ensures { result ≡ bits_of x }
{
    if x.is_nan() { u64::MAX } else { x.to_bits() }
}

// What is compared in every place: its parts to the bit, or as numbers.
pub trait Same: Copy {
    ghost same: { Bool → Self → Self → Bool };

    fn same(&self, to_the_bit: bool, other: &Self) -> bool
        ensures { result ≡ same to_the_bit self.now other.now };
}

impl Same for f64 {
    ghost use Rattle.observations.specs.Records.{same_part};

    ghost same = { same_part };

    fn same(&self, to_the_bit: bool, other: &f64) -> bool {
        if to_the_bit {
            bits(*self) == bits(*other)
        } else {
            *self == *other
        }
    }
}

impl Same for Complex {
    ghost use Rattle.observations.specs.Records.{same_number};

    ghost same = { same_number };

    fn same(&self, to_the_bit: bool, other: &Complex) -> bool {
        self.re.same(to_the_bit, &other.re) && self.im.same(to_the_bit, &other.im)
    }
}

// A product has no parts.
impl Same for Items {
    ghost use Rattle.items.specs.Record.{same_items};

    ghost same = { λ to_the_bit p q. same_items p q };

    #[tactic(auto, using(items::proofs::SameLaws::items_eq))]
    fn same(&self, _to_the_bit: bool, other: &Items) -> bool {
        *self == *other
    }
}

impl<A: Same, B: Same> Same for (A, B) {
    ghost use Rattle.std.specs.Prelude.{◌&&◌};

    ghost same = { λ to_the_bit x y. A.same to_the_bit x.0 y.0 && B.same to_the_bit x.1 y.1 };

    fn same(&self, to_the_bit: bool, other: &(A, B)) -> bool {
        self.0.same(to_the_bit, &other.0) && self.1.same(to_the_bit, &other.1)
    }
}

impl<K: Same, N: Same> Same for Term<K, N> {
    ghost use Rattle.observations.specs.Records.{same_term};

    ghost same = { λ to_the_bit. same_term (K.same to_the_bit) (N.same to_the_bit) };

    fn same(&self, to_the_bit: bool, other: &Term<K, N>) -> bool {
        self.key.same(to_the_bit, &other.key)
            && self.coefficient.same(to_the_bit, &other.coefficient)
    }
}

// Whether two lists are of one length and the same place by place.
fn same_lists<T: Same>(to_the_bit: bool, xs: &[T], ys: &[T]) -> bool
    ensures { result ≡ same_lists (T.same to_the_bit) xs.now ys.now }
{
    xs.len() == ys.len() && xs.iter().zip(ys).all(|(x, y)| x.same(to_the_bit, y))
}

impl<K: Same, N: Same> Same for Set<K, N> {
    ghost use Rattle.observations.specs.Records.{same_set};

    ghost same = { λ to_the_bit. same_set (K.same to_the_bit) (N.same to_the_bit) };

    fn same(&self, to_the_bit: bool, other: &Set<K, N>) -> bool {
        self.count == other.count && same_lists(to_the_bit, &self.terms, &other.terms)
    }
}

impl Same for PauliHamiltonian {
    ghost use Rattle.observations.specs.Records.{same_reals};

    ghost same = { λ to_the_bit a b. same_reals to_the_bit a.terms b.terms };

    fn same(&self, to_the_bit: bool, other: &PauliHamiltonian) -> bool {
        self.terms.same(to_the_bit, &other.terms)
    }
}

impl<K: Alphabet> Same for Operator<K> {
    ghost use Rattle.observations.specs.Records.{same_terms};

    ghost same = { λ to_the_bit a b. same_terms to_the_bit a.terms b.terms };

    fn same(&self, to_the_bit: bool, other: &Operator<K>) -> bool {
        self.terms.same(to_the_bit, &other.terms)
    }
}

impl Same for PauliLindbladNoiseOperator {
    ghost use Rattle.observations.specs.Records.{same_pairs};

    ghost same = { λ to_the_bit a b. same_pairs to_the_bit a.set b.set };

    fn same(&self, to_the_bit: bool, other: &PauliLindbladNoiseOperator) -> bool {
        self.set.same(to_the_bit, &other.set)
    }
}

impl Same for PauliLindbladOpenSystem {
    ghost use Rattle.std.specs.Prelude.{◌&&◌};
    ghost use Rattle.observations.specs.Records.{same_reals, same_pairs};

    ghost same = { λ to_the_bit a b. same_reals to_the_bit a.system.terms b.system.terms && same_pairs to_the_bit a.noise.set b.noise.set };

    fn same(&self, to_the_bit: bool, other: &PauliLindbladOpenSystem) -> bool {
        self.system.same(to_the_bit, &other.system) && self.noise.same(to_the_bit, &other.noise)
    }
}
