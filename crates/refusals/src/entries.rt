// The sets of terms of the library by one interface: those that a case's terms make, and the entries that each of them has.
use observations::records::Same;
use spins::{
    Alphabet, Complex, Items, Operator, PauliHamiltonian, PauliLindbladNoiseOperator, Refusal, Set,
    Term, TermSet, operator_of,
};

// A set with a coefficient under each key.
pub(crate) trait Keyed<Key>: Same {
    fn get(&self, key: Key) -> Result<Complex, Refusal>;

    fn set(&mut self, key: Key, value: Complex) -> Result<Option<Complex>, Refusal>;

    fn add_operator_product(&mut self, key: Key, value: Complex) -> Result<(), Refusal>;
}

// A set of terms on products of one kind.
pub(crate) trait Terms: Keyed<Items> {
    fn of(terms: TermSet) -> Self;

    fn hermitian_conjugate(&self) -> Result<Self, Refusal>;
}

impl<K: Alphabet> Keyed<Items> for Operator<K> {
    fn get(&self, key: Items) -> Result<Complex, Refusal> {
        Operator::get(self, key.into())
    }

    fn set(&mut self, key: Items, value: Complex) -> Result<Option<Complex>, Refusal> {
        Operator::set(self, key.into(), value)
    }

    fn add_operator_product(&mut self, key: Items, value: Complex) -> Result<(), Refusal> {
        Operator::add_operator_product(self, key.into(), value)
    }
}

impl<K: Alphabet> Terms for Operator<K> {
    fn of(terms: TermSet) -> Self {
        operator_of(terms)
    }

    fn hermitian_conjugate(&self) -> Result<Self, Refusal> {
        Operator::hermitian_conjugate(self)
    }
}

// A Hamiltonian's coefficients are real.
impl Keyed<Items> for PauliHamiltonian {
    fn get(&self, key: Items) -> Result<Complex, Refusal> {
        PauliHamiltonian::get(self, key.into())
    }

    fn set(&mut self, key: Items, value: Complex) -> Result<Option<Complex>, Refusal> {
        PauliHamiltonian::set(self, key.into(), value.re)
    }

    fn add_operator_product(&mut self, key: Items, value: Complex) -> Result<(), Refusal> {
        PauliHamiltonian::add_operator_product(self, key.into(), value.re)
    }
}

impl Terms for PauliHamiltonian {
    fn of(terms: TermSet) -> Self {
        PauliHamiltonian {
            terms: Set {
                count: terms.count,
                terms: terms.terms.map(|t| Term {
                    key: t.key,
                    coefficient: t.coefficient.re,
                }),
            },
        }
    }

    fn hermitian_conjugate(&self) -> Result<Self, Refusal> {
        PauliHamiltonian::hermitian_conjugate(self)
    }
}

// The key of noise is the two sides of a pair.
impl Keyed<(Items, Items)> for PauliLindbladNoiseOperator {
    fn get(&self, (left, right): (Items, Items)) -> Result<Complex, Refusal> {
        PauliLindbladNoiseOperator::get(self, left.into(), right.into())
    }

    fn set(
        &mut self,
        (left, right): (Items, Items),
        value: Complex,
    ) -> Result<Option<Complex>, Refusal> {
        PauliLindbladNoiseOperator::set(self, left.into(), right.into(), value)
    }

    fn add_operator_product(
        &mut self,
        (left, right): (Items, Items),
        value: Complex,
    ) -> Result<(), Refusal> {
        let (left, right) = (left.into(), right.into());
        PauliLindbladNoiseOperator::add_operator_product(self, left, right, value)
    }
}
