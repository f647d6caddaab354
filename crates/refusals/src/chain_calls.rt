// Sets multiplied, conjugated, converted and scaled: a set, then a second one or a coefficient.
use crate::entries::Terms;
use crate::numbers::Numbers;
use crate::report::{EMPTY, called, told};
use spins::{
    Alphabet, DecoherenceLetters, DecoherenceOperator, Operator, PauliHamiltonian, PauliLetters,
    PauliOperator, operator_of,
};
use std::io;

fn multiply<K: Alphabet>(rt: &impl Print, numbers: &mut Numbers) -> io::Result<()> {
    let left: Operator<K> = operator_of(numbers.set());
    let right = operator_of(numbers.set());
    called(rt, left, |left| left.multiply(&right))
}

fn hermitian_conjugate<S: Terms>(rt: &impl Print, numbers: &mut Numbers) -> io::Result<()> {
    called(rt, S::of(numbers.set()), |s| s.hermitian_conjugate())
}

fn from_hamiltonians(rt: &impl Print, numbers: &mut Numbers) -> io::Result<()> {
    let left = PauliHamiltonian::of(numbers.set());
    let right = PauliHamiltonian::of(numbers.set());
    told(rt, PauliOperator::from_hamiltonians(&left, &right), EMPTY)
}

fn from_hamiltonian(rt: &impl Print, numbers: &mut Numbers) -> io::Result<()> {
    let h = PauliHamiltonian::of(numbers.set());
    told(rt, PauliOperator::from_hamiltonian(&h), EMPTY)
}

fn from_pauli_operator(rt: &impl Print, numbers: &mut Numbers) -> io::Result<()> {
    let s = operator_of(numbers.set());
    told(rt, DecoherenceOperator::from_pauli_operator(&s), EMPTY)
}

fn scale(rt: &impl Print, numbers: &mut Numbers) -> io::Result<()> {
    let s: PauliOperator = operator_of(numbers.set());
    let value = numbers.coefficient();
    called(rt, s, |s| s.scale(value))
}

pub(crate) fn call(rt: &impl Print, entry: u64, numbers: &mut Numbers) -> io::Result<()> {
    match entry {
        30 => multiply::<PauliLetters>(rt, numbers),
        31 => multiply::<DecoherenceLetters>(rt, numbers),
        32 => from_hamiltonians(rt, numbers),
        33 => hermitian_conjugate::<PauliOperator>(rt, numbers),
        34 => hermitian_conjugate::<DecoherenceOperator>(rt, numbers),
        35 => hermitian_conjugate::<PauliHamiltonian>(rt, numbers),
        36 => from_hamiltonian(rt, numbers),
        37 => from_pauli_operator(rt, numbers),
        _ => scale(rt, numbers),
    }
}
