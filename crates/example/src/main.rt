// Prints exact rows of a small system, or why a call is refused.
#![tactic(auto)]

use printing::{Places, print_entries};
use spins::{
    Complex, DecoherenceProduct, PauliHamiltonian, PauliLindbladNoiseOperator,
    PauliLindbladOpenSystem, PauliProduct, Refusal, exact_row,
};

// The letter codes; 2 is Y in a Pauli product and iY in a decoherence product.
const X: u8 = 1;

const Z: u8 = 3;

// The Hamiltonian 3 Z0, and the noise pair (X0, X0) with rate 2.
fn system() -> Result<PauliLindbladOpenSystem, Refusal> {
    let z0 = PauliProduct::new().set_pauli(0, Z)?;
    let mut h = PauliHamiltonian::new();
    h.set(z0, 3.0)?;
    let x0 = DecoherenceProduct::new().set_pauli(0, X)?;
    let mut noise = PauliLindbladNoiseOperator::new();
    noise.set(x0, x0, Complex { re: 2.0, im: 0.0 })?;
    PauliLindbladOpenSystem::group(h, noise)
}

fn print_row(rt: &impl Print, s: &PauliLindbladOpenSystem, spins: u32, row: u64) {
    let mut lent = Places::new();
    match exact_row(s, spins, row, &mut lent.columns, &mut lent.re, &mut lent.im) {
        Ok(n) => {
            print_entries(rt, row, n, &lent);
        }
        Err(why) => print_refusal(rt, why),
    }
}

// What can't be printed is passed over.
fn print_refusal(rt: &impl Print, why: Refusal) {
    let _ = println!(rt; "refused under number {}", why.number());
}

fn main(rt: HostRuntime) {
    match system() {
        Ok(s) => {
            print_row(&rt, &s, 1, 0);
            print_row(&rt, &s, 1, 1);
            print_row(&rt, &s, 0, 0);
        }
        Err(why) => print_refusal(&rt, why),
    }
}
