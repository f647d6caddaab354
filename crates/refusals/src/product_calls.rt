// The entries on products: a kind, 0 for Pauli letters, then a product and what else the entry takes.
use crate::numbers::Numbers;
use crate::report::{POWER_AND_EMPTY, POWER_AND_STATE, STATE, told};
use spins::{Alphabet, DecoherenceLetters, DecoherenceProduct, PauliLetters, Product};
use std::io;

// The entries that both kinds have.
fn call_on<K: Alphabet>(rt: &impl Print, entry: u64, numbers: &mut Numbers) -> io::Result<()> {
    let p: Product<K> = numbers.product().into();
    match entry {
        10 => told(rt, p.get(numbers.small()), ""),
        11 => {
            let site = numbers.small();
            let letter = numbers.small();
            told(rt, p.set_pauli(site, letter), STATE)
        }
        12 => told(rt, p.multiply(numbers.product().into()), POWER_AND_STATE),
        13 => told(rt, p.concatenate(numbers.product().into()), STATE),
        14 => told(rt, p.remap_qubits(numbers.targets()), STATE),
        15 => told(rt, p.cmp(numbers.product().into()), ""),
        _ => told(rt, p.hermitian_conjugate(), POWER_AND_STATE),
    }
}

// A product of the kind in letters of the other one.
fn convert(rt: &impl Print, kind: u64, numbers: &mut Numbers) -> io::Result<()> {
    let items = numbers.product();
    if kind == 0 {
        let converted = DecoherenceProduct::spin_to_decoherence(items.into());
        told(rt, converted, POWER_AND_EMPTY)
    } else {
        let p: DecoherenceProduct = items.into();
        told(rt, p.decoherence_to_spin(), POWER_AND_EMPTY)
    }
}

fn row(rt: &impl Print, numbers: &mut Numbers) -> io::Result<()> {
    let p: DecoherenceProduct = numbers.product().into();
    let spins = numbers.narrow();
    let row = numbers.number();
    told(rt, p.sparse_matrix_entries_on_row(spins, row), "")
}

pub(crate) fn call(rt: &impl Print, entry: u64, numbers: &mut Numbers) -> io::Result<()> {
    let kind = numbers.number();
    match (entry, kind) {
        (17, _) => convert(rt, kind, numbers),
        (18 | 19, _) => row(rt, numbers),
        (_, 0) => call_on::<PauliLetters>(rt, entry, numbers),
        _ => call_on::<DecoherenceLetters>(rt, entry, numbers),
    }
}
