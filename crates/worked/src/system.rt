// The system whose rows are printed, made by the entries that callers have.
use spins::{
    Complex, DecoherenceProduct, PauliHamiltonian, PauliLindbladNoiseOperator,
    PauliLindbladOpenSystem, PauliProduct, Refusal,
};

// The letter codes.
const X: u8 = 1;

const Z: u8 = 3;

// 3 Z0.
fn hamiltonian() -> Result<PauliHamiltonian, Refusal> {
    let z0 = PauliProduct::new().set_pauli(0, Z)?;
    let mut h = PauliHamiltonian::new();
    h.set(z0, 3.0)?;
    Ok(h)
}

// (X0, X0), 2.
fn noise() -> Result<PauliLindbladNoiseOperator, Refusal> {
    let x0 = DecoherenceProduct::new().set_pauli(0, X)?;
    let mut noise = PauliLindbladNoiseOperator::new();
    noise.set(x0, x0, Complex { re: 2.0, im: 0.0 })?;
    Ok(noise)
}

pub(crate) fn worked() -> Result<PauliLindbladOpenSystem, Refusal> {
    PauliLindbladOpenSystem::group(hamiltonian()?, noise()?)
}
