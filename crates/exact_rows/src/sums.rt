// The contributions of terms in whole halves: two of each of the Hamiltonian's, three of each of the noise's.
ghost use Rattle.std.specs.Prelude.{◌≡◌, ◌^◌, ◌≤◌, ◌*◌, map, length};
ghost use Rattle.complex.specs.Wholes.{parts_of};
ghost use Rattle.terms.specs.Setting.{most_terms};
ghost use Rattle.rows.specs.Entries.{contributions_of};
ghost use Rattle.outside_sites.specs.Accepted.{Accepted};
ghost use Rattle.outside_sites.specs.SystemItems.{system_items};
ghost use Rattle.term_sets.specs.Complexes as complexes;
ghost use Rattle.noise_sets.specs.Pairs as pairs;
ghost use Rattle.exact_sums.specs.Exact.{exact_pair};
ghost use Rattle.exact_rows.specs.ExactRows.{exact_contributions};

use complex::Complex;
use contributions::{of_commutator, of_noise};
use exact_sums::Halves;
use rows::Contributions;
use term_sets::key::Key;
use term_sets::masks::Masks;
use term_sets::{NoiseSet, TermSet};
use whole_sets::parts_of;

// A coefficient's whole parts.
fn whole(c: Complex) -> Halves
    ensures parts { (result.re ≡ parts_of c.re) × (result.im ≡ parts_of c.im) }
{
    Halves {
        re: parts_of(c.re),
        im: parts_of(c.im),
    }
}

// Of terms that fit the spins: the Hamiltonian's, then the noise's.
pub(crate) fn given(h: &TermSet, n: &NoiseSet, spins: u32, row: u64) -> Contributions<Halves>
    requires { (length (complexes.held_by h.now) ≤ most_terms) × (length (pairs.held_by n.now) ≤ most_terms) }
    ensures { Accepted spins (2 ^ spins * 2 ^ spins) row (system_items (complexes.held_by h.now) (pairs.held_by n.now)) → map exact_pair (contributions_of result) ≡ exact_contributions spins row (complexes.held_by h.now) (pairs.held_by n.now) }
{
    let mut all = Contributions::new();
    for t in h.held() {
        let _ = all.add(&of_commutator(t.key.masks(), whole(t.coefficient), spins, row));
    }
    for t in n.held() {
        let masks = Masks {
            left: t.key.0.masks(),
            right: t.key.1.masks(),
        };
        let _ = all.add(&of_noise(masks, whole(t.coefficient), spins, row));
    }
    all
}
