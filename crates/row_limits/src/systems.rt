// The systems whose rows are run.
use spins::{
    Alphabet, Complex, DecoherenceProduct, PauliHamiltonian, PauliLindbladNoiseOperator,
    PauliLindbladOpenSystem, PauliProduct, Product, Refusal,
};

// The letter of a seed's product on a site: X or Y where the seed has the bit, else Z on each third site.
fn letter(seed: u8, site: u8) -> u8 {
    if (seed >> (site % 8)) % 2 == 1 {
        return 1 + site % 2;
    }
    if site % 3 == 0 { 3 } else { 0 }
}

// The product of a seed, on up to 31 sites. Products of different seeds flip different spins.
fn seeded<K: Alphabet>(seed: u8) -> Result<Product<K>, Refusal> {
    let mut p = Product::new();
    for site in 0..31 {
        p = p.set_pauli(site, letter(seed, site))?;
    }
    Ok(p)
}

// 64 terms with the coefficients 1 to 64.
fn full_hamiltonian() -> Result<PauliHamiltonian, Refusal> {
    let mut h = PauliHamiltonian::new();
    for n in 1..65 {
        h.set(seeded(n)?, f64::from(n))?;
    }
    Ok(h)
}

// 64 pairs with the coefficients 2 + 254i, 4 + 252i, to 128 + 128i.
fn full_noise() -> Result<PauliLindbladNoiseOperator, Refusal> {
    let mut noise = PauliLindbladNoiseOperator::new();
    for i in 0..64 {
        let re = f64::from(2 * (i + 1));
        let im = 256.0 - re;
        let (left, right) = (seeded(255 - 2 * i)?, seeded(i + 1)?);
        noise.set(left, right, Complex { re, im })?;
    }
    Ok(noise)
}

// As many terms as a system holds, and no two of the contributions to a row in one column.
pub(crate) fn full() -> Result<PauliLindbladOpenSystem, Refusal> {
    Ok(PauliLindbladOpenSystem {
        system: full_hamiltonian()?,
        noise: full_noise()?,
    })
}

// The product of one letter.
fn single<K: Alphabet>(site: u8, letter: u8) -> Result<Product<K>, Refusal> {
    Product::new().set_pauli(site, letter)
}

// A Hamiltonian of one term.
fn one_term(p: PauliProduct, value: f64) -> Result<PauliHamiltonian, Refusal> {
    let mut h = PauliHamiltonian::new();
    h.set(p, value)?;
    Ok(h)
}

// One pair with a real coefficient.
fn one_pair(
    left: DecoherenceProduct,
    right: DecoherenceProduct,
    value: f64,
) -> Result<PauliLindbladNoiseOperator, Refusal> {
    let mut noise = PauliLindbladNoiseOperator::new();
    noise.set(left, right, value.into())?;
    Ok(noise)
}

// 3 times Z0, with the noise (X0, X0), 2.
pub(crate) fn worked() -> Result<PauliLindbladOpenSystem, Refusal> {
    Ok(PauliLindbladOpenSystem {
        system: one_term(single(0, 3)?, 3.0)?,
        noise: one_pair(single(0, 1)?, single(0, 1)?, 2.0)?,
    })
}

// X on one site, without noise.
pub(crate) fn at_site(site: u8) -> Result<PauliLindbladOpenSystem, Refusal> {
    Ok(PauliLindbladOpenSystem {
        system: one_term(single(site, 1)?, 5.0)?,
        noise: PauliLindbladNoiseOperator::new(),
    })
}

// The noise (X0, X) with its right side on a site, 6, without a Hamiltonian.
pub(crate) fn noise_at_site(site: u8) -> Result<PauliLindbladOpenSystem, Refusal> {
    Ok(PauliLindbladOpenSystem {
        system: PauliHamiltonian::new(),
        noise: one_pair(single(0, 1)?, single(site, 1)?, 6.0)?,
    })
}
