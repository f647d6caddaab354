// The entries on noise: two sets whose products make the pairs, then what else the entry takes.
use crate::entries::Terms;
use crate::numbers::Numbers;
use crate::report::called;
use crate::set_calls::call_with;
use spins::{PauliHamiltonian, PauliLindbladNoiseOperator, PauliLindbladOpenSystem, operator_of};
use std::io;

fn add_full(
    rt: &impl Print,
    noise: PauliLindbladNoiseOperator,
    numbers: &mut Numbers,
) -> io::Result<()> {
    let left = operator_of(numbers.set());
    let right = operator_of(numbers.set());
    let value = numbers.coefficient();
    called(rt, noise, |noise| {
        noise.add_noise_from_full_operators(&left, &right, value)
    })
}

fn remap_qubits(
    rt: &impl Print,
    noise: PauliLindbladNoiseOperator,
    numbers: &mut Numbers,
) -> io::Result<()> {
    let targets = numbers.targets();
    called(rt, noise, |noise| noise.remap_qubits(targets))
}

fn group(
    rt: &impl Print,
    noise: PauliLindbladNoiseOperator,
    numbers: &mut Numbers,
) -> io::Result<()> {
    let system = PauliHamiltonian::of(numbers.set());
    let parts = PauliLindbladOpenSystem { system, noise };
    called(rt, parts, |parts| {
        PauliLindbladOpenSystem::group(parts.system, parts.noise)
    })
}

pub(crate) fn call(rt: &impl Print, entry: u64, numbers: &mut Numbers) -> io::Result<()> {
    let noise = PauliLindbladNoiseOperator {
        set: numbers.pairs(),
    };
    match entry {
        43 => add_full(rt, noise, numbers),
        44 => remap_qubits(rt, noise, numbers),
        45 => group(rt, noise, numbers),
        _ => {
            let key = (numbers.product(), numbers.product());
            let value = numbers.coefficient();
            call_with(rt, entry % 10, noise, key, value)
        }
    }
}
