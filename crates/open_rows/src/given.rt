// The contributions of terms as judging hands them out, in term order: two of each of a Hamiltonian's, three of each of noise.
ghost use Rattle.std.specs.Prelude.{◌≡◌, List, map, ◌*◌, ◌^◌, ◌≤◌, length};
ghost use Rattle.terms.specs.Setting.{most_terms};
ghost use Rattle.rows.specs.Entries.{contributions_of};
ghost use Rattle.outside_sites.specs.Accepted.{Accepted};
ghost use Rattle.open_rows.specs.Masked.{as_complex, masked, masked_pair};
ghost use Rattle.term_sets.specs.Complexes.{Term, items_of};
ghost use Rattle.contributions.specs.TermContributions.{commutator_contributions, noise_contributions};
ghost use Rattle.noise_sets.specs.Pairs.{NoiseTerm, sides_of};

use complex::Complex;
use contributions::{of_commutator, of_noise};
use rows::Contributions;
use term_sets::judging::MaskedTerms;

// Of a Hamiltonian's terms to the commutator's row.
pub(crate) fn terms_given(terms: &MaskedTerms<f64>, spins: u32, row: u64) -> Contributions<Complex>
    ensures few { length (contributions_of result) ≤ 2 * most_terms }
    ensures given { (l : List Term) → map as_complex terms.now.items ≡ map masked l → Accepted spins (2 ^ spins * 2 ^ spins) row (items_of l) → contributions_of result ≡ commutator_contributions spins row l }
{
    let mut all = Contributions::new();
    for t in terms.as_slice() {
        let c = Complex::from(t.coefficient);
        let _ = all.add(&of_commutator(t.masks.left, c, spins, row));
    }
    all
}

// Of noise terms to the noise row.
pub(crate) fn pairs_given(
    pairs: &MaskedTerms<Complex>,
    spins: u32,
    row: u64,
) -> Contributions<Complex>
    ensures few { length (contributions_of result) ≤ 3 * most_terms }
    ensures given { (l : List NoiseTerm) → pairs.now.items ≡ map masked_pair l → Accepted spins (2 ^ spins * 2 ^ spins) row (sides_of l) → contributions_of result ≡ noise_contributions spins row l }
{
    let mut all = Contributions::new();
    for t in pairs.as_slice() {
        let _ = all.add(&of_noise(t.masks, t.coefficient, spins, row));
    }
    all
}
