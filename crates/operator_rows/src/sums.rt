// The contributions of an operator's terms, one of each term; and of a commutator's, two of each.
ghost use Rattle.std.specs.Prelude.{◌≡◌, ◌^◌, ◌≤◌, ◌*◌, length};
ghost use Rattle.letters.specs.Matrices.{pauli};
ghost use Rattle.terms.specs.Setting.{most_terms};
ghost use Rattle.rows.specs.Entries.{contributions_of};
ghost use Rattle.outside_sites.specs.Accepted.{Accepted};
ghost use Rattle.term_sets.specs.Complexes.{held_by, items_of};
ghost use Rattle.contributions.specs.TermContributions.{operator_contributions, commutator_contributions};

use complex::Complex;
use contributions::{of_commutator, of_operator};
use letters::Kind;
use rows::Contributions;
use term_sets::TermSet;

pub(crate) fn operator_given(s: &TermSet, spins: u32, row: u64) -> Contributions<Complex>
    requires few { length (held_by s.now) ≤ most_terms }
    ensures { Accepted spins (2 ^ spins) row (items_of (held_by s.now)) → contributions_of result ≡ operator_contributions pauli spins row (held_by s.now) }
{
    let mut all = Contributions::new();
    for t in s.held() {
        let _ = all.add(&[of_operator(Kind::Pauli, t.key.masks(), t.coefficient, spins, row)]);
    }
    all
}

pub(crate) fn commutator_given(s: &TermSet, spins: u32, row: u64) -> Contributions<Complex>
    requires few { length (held_by s.now) ≤ most_terms }
    ensures { Accepted spins (2 ^ spins * 2 ^ spins) row (items_of (held_by s.now)) → contributions_of result ≡ commutator_contributions spins row (held_by s.now) }
{
    let mut all = Contributions::new();
    for t in s.held() {
        let _ = all.add(&of_commutator(t.key.masks(), t.coefficient, spins, row));
    }
    all
}
