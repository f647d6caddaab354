// `get`, `set` and `add_operator_product` of sets, by the last digit of an entry: 0, 1 and 2. An entry from 20 on has a kind, a set, a
// product and a coefficient.
use crate::entries::{Keyed, Terms};
use crate::numbers::Numbers;
use crate::report::{called, told};
use spins::{Complex, DecoherenceOperator, PauliHamiltonian, PauliOperator};
use std::io;

// The entry with this last digit, on a set with a key and a coefficient.
pub(crate) fn call_with<Key: Copy, S: Keyed<Key>>(
    rt: &impl Print,
    digit: u64,
    s: S,
    key: Key,
    value: Complex,
) -> io::Result<()> {
    match digit {
        0 => told(rt, s.get(key), ""),
        1 => called(rt, s, |s| s.set(key, value)),
        _ => called(rt, s, |s| s.add_operator_product(key, value)),
    }
}

fn call_on<S: Terms>(rt: &impl Print, entry: u64, numbers: &mut Numbers) -> io::Result<()> {
    let s = S::of(numbers.set());
    let key = numbers.product();
    let value = numbers.coefficient();
    call_with(rt, entry % 10, s, key, value)
}

pub(crate) fn call(rt: &impl Print, entry: u64, numbers: &mut Numbers) -> io::Result<()> {
    match numbers.number() {
        0 => call_on::<PauliOperator>(rt, entry, numbers),
        1 => call_on::<DecoherenceOperator>(rt, entry, numbers),
        _ => call_on::<PauliHamiltonian>(rt, entry, numbers),
    }
}
