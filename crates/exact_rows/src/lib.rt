// The exact rows of open systems, in whole halves.
#![tactic(auto)]

ghost use Rattle.std.specs.Prelude.{true, ◌≡◌, ◌≤◌, length};
ghost use Rattle.rows.specs.Buffers.{said_delivery};
ghost use Rattle.exact_sums.specs.ExactSums.{ExactCall};
ghost use Rattle.exact_sums.specs.Exact.{said_exact};
ghost use Rattle.term_sets.specs.Complexes as complexes;
ghost use Rattle.noise_sets.specs.Pairs as pairs;
ghost use Rattle.outside_sites.specs.SystemItems.{system_items};
ghost use Rattle.exact_rows.specs.ExactRows.{exact_row_of_terms, exact_row};
ghost use Rattle.items.specs.Record.{valid};
ghost use Rattle.terms.specs.Keyed.{each};
ghost use Rattle.terms.specs.Setting.{most_terms};

mod sums;

use crate::sums::given;
use exact_sums::Halves;
use open_system::PauliLindbladOpenSystem;
use outside_sites::outside_site;
use refusal::Refusal;
use row_entries::{MOST_SPINS, superoperator_size};
use rows::Row;
use term_sets::{NoiseSet, TermSet};
use whole_sets::all_whole;

// The exact row of valid terms: 7, 9, 8, 11, then the row.
fn row_of(h: &TermSet, n: &NoiseSet, spins: u32, row: u64) -> Result<Row<Halves>, Refusal>
    requires few { (length (complexes.held_by h.now) ≤ most_terms) × (length (pairs.held_by n.now) ≤ most_terms) }
    requires valid { each (λ p ps. valid p) (system_items (complexes.held_by h.now) (pairs.held_by n.now)) ≡ true }
    ensures { said_exact result ≡ exact_row_of_terms spins row (complexes.held_by h.now) (pairs.held_by n.now) }
{
    if MOST_SPINS < spins {
        return Err(Refusal::TooManySpins);
    }
    if superoperator_size(spins) <= row {
        return Err(Refusal::RowOutOfRange);
    }
    if let Some(site) = outside_site(h, n, spins) {
        return Err(Refusal::SiteOutsideSpins(site));
    }
    if !all_whole(h) || !all_whole(n) {
        return Err(Refusal::NotWhole);
    }
    exact_sums::row(&given(h, n, spins, row))
}

// The exact row of an open system's superoperator over `spins` spins, in halves.
pub fn exact_row(
    s: &PauliLindbladOpenSystem,
    spins: u32,
    row: u64,
    out_columns: &mut [u64],
    out_re: &mut [i64],
    out_im: &mut [i64],
) -> Result<usize, Refusal>
    ensures { ExactCall (exact_row s.now spins row) (said_delivery result) out_columns.old out_columns.new out_re.old out_re.new out_im.old out_im.new }
{
    if !s.system.is_valid() || !s.noise.is_valid() {
        return Err(Refusal::Malformed);
    }
    let terms = s.system.complex_terms();
    row_of(&terms, &s.noise.set, spins, row)?.deliver(out_columns, out_re, out_im)
}
