// The sets that records build and call, by one interface.
use crate::forms::{Form, Real};
use observations::records::Same;
use spins::{
    Alphabet, Complex, Items, Key, Operator, PauliHamiltonian, PauliLindbladNoiseOperator, Refusal,
    Term,
};

pub(crate) trait Set: Copy {
    type Key: Form + Key;

    type Value: Form + Copy;

    fn new() -> Self;

    // The coefficient before, none where the key was free.
    fn set(&mut self, key: Self::Key, value: Self::Value) -> Result<Option<Complex>, Refusal>;

    fn add(&mut self, key: Self::Key, value: Self::Value) -> Result<(), Refusal>;

    fn get(&self, key: Self::Key) -> Result<Complex, Refusal>;

    // Whether the set holds these terms in this order, and zero records past them.
    fn holds(&self, told: &[(Self::Key, Complex)]) -> bool;

    // Whether a key is a pair with an empty side.
    fn has_empty_side(_key: Self::Key) -> bool {
        false
    }
}

impl<K: Alphabet> Set for Operator<K> {
    type Key = Items;

    type Value = Complex;

    fn new() -> Self {
        Operator::new()
    }

    fn set(&mut self, key: Items, value: Complex) -> Result<Option<Complex>, Refusal> {
        Operator::set(self, key.into(), value)
    }

    fn add(&mut self, key: Items, value: Complex) -> Result<(), Refusal> {
        self.add_operator_product(key.into(), value)
    }

    fn get(&self, key: Items) -> Result<Complex, Refusal> {
        Operator::get(self, key.into())
    }

    fn holds(&self, told: &[(Items, Complex)]) -> bool {
        self.terms.same(false, &listed(told))
    }
}

impl Set for PauliHamiltonian {
    type Key = Items;

    type Value = Real;

    fn new() -> Self {
        PauliHamiltonian::new()
    }

    fn set(&mut self, key: Items, value: Real) -> Result<Option<Complex>, Refusal> {
        PauliHamiltonian::set(self, key.into(), value.0)
    }

    fn add(&mut self, key: Items, value: Real) -> Result<(), Refusal> {
        self.add_operator_product(key.into(), value.0)
    }

    fn get(&self, key: Items) -> Result<Complex, Refusal> {
        PauliHamiltonian::get(self, key.into())
    }

    // The zero records are looked at by number 0.
    fn holds(&self, told: &[(Items, Complex)]) -> bool {
        self.is_valid() && self.complex_terms().same(false, &listed(told))
    }
}

impl Set for PauliLindbladNoiseOperator {
    type Key = (Items, Items);

    type Value = Complex;

    fn new() -> Self {
        PauliLindbladNoiseOperator::new()
    }

    fn set(&mut self, key: (Items, Items), value: Complex) -> Result<Option<Complex>, Refusal> {
        PauliLindbladNoiseOperator::set(self, key.0.into(), key.1.into(), value)
    }

    fn add(&mut self, key: (Items, Items), value: Complex) -> Result<(), Refusal> {
        self.add_operator_product(key.0.into(), key.1.into(), value)
    }

    fn get(&self, key: (Items, Items)) -> Result<Complex, Refusal> {
        PauliLindbladNoiseOperator::get(self, key.0.into(), key.1.into())
    }

    fn holds(&self, told: &[((Items, Items), Complex)]) -> bool {
        self.set.same(false, &listed(told))
    }

    fn has_empty_side((left, right): (Items, Items)) -> bool {
        left.count == 0 || right.count == 0
    }
}

// Terms as a record of terms.
fn listed<K: Key>(told: &[(K, Complex)]) -> spins::Set<K, Complex> {
    let mut list = spins::Set::new();
    list.count = told.len();
    for (place, (key, coefficient)) in list.terms.iter_mut().zip(told) {
        *place = Term {
            key: *key,
            coefficient: *coefficient,
        };
    }
    list
}
