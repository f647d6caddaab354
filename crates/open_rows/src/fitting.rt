// Whether masks show that no product has a site at the spin count or above.
ghost use Rattle.std.specs.Prelude.{◌≡◌, true, List, [], map, ◌≤◌, ◌<◌, ◌/◌, ◌%◌, ◌^◌};
ghost use Rattle.items.specs.Record.{valid};
ghost use Rattle.row_entries.specs.Answers.{most_spins};
ghost use Rattle.terms.specs.Keyed.{each};
ghost use Rattle.rows.specs.Calls.{outside};
ghost use Rattle.noise_sets.specs.Pairs.{NoiseTerm, sides_of};
ghost use Rattle.term_sets.specs.Complexes.{Term, items_of};
ghost use Rattle.open_rows.specs.Masked.{as_complex, masked, masked_pair};

use items::masks::MASK_SIZE;
use row_entries::size_of;
use term_sets::judging::MaskedTerms;

// Whether both halves of a number of masks are below 2^spins.
fn is_below(masks: u64, spins: u32) -> bool
    requires { spins ≤ most_spins }
    ensures { result ≡ true → (masks % 2 ^ 32 < 2 ^ spins) × (masks / 2 ^ 32 < 2 ^ spins) }
{
    let size = size_of(spins);
    masks % MASK_SIZE < size && masks / MASK_SIZE < size
}

// Whether the masks of a Hamiltonian's terms are: then no valid product with these masks has a site at `spins` or above.
pub(crate) fn terms_fit(terms: &MaskedTerms<f64>, spins: u32) -> bool
    requires { spins ≤ most_spins }
    ensures { result ≡ true → (h : List Term) → each (λ p qs. valid p) (items_of h) ≡ true → map as_complex terms.now.items ≡ map masked h → outside spins (items_of h) ≡ [] }
{
    let mut all: u64 = 0;
    for t in terms.as_slice() {
        all = all | t.masks.left;
    }
    is_below(all, spins)
}

// Whether the masks of both sides of noise terms are.
pub(crate) fn pairs_fit(pairs: &MaskedTerms<complex::Complex>, spins: u32) -> bool
    requires { spins ≤ most_spins }
    ensures { result ≡ true → (w : List NoiseTerm) → each (λ p qs. valid p) (sides_of w) ≡ true → pairs.now.items ≡ map masked_pair w → outside spins (sides_of w) ≡ [] }
{
    let mut all: u64 = 0;
    for t in pairs.as_slice() {
        all = all | t.masks.left | t.masks.right;
    }
    is_below(all, spins)
}
