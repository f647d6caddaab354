// Rows of open systems in f64; and of noise, which share their contributions.
#![tactic(auto)]

ghost use Rattle.std.specs.Prelude.{◌≡◌, List, map, ◌*◌, ◌^◌, IsOk};
ghost use Rattle.refusal.specs.Refusals.{gives};
ghost use Rattle.rows.specs.Floats.{floats};
ghost use Rattle.rows.specs.Placing.{open_row_in};
ghost use Rattle.rows.specs.Buffers.{said_delivery};
ghost use Rattle.rows.specs.Calls.{RowCall};
ghost use Rattle.rows.specs.Entries.{said_row};
ghost use Rattle.term_sets.specs.Complexes.{Term};
ghost use Rattle.noise_sets.specs.Pairs.{NoiseTerm};
ghost use Rattle.outside_sites.specs.Accepted.{Accepted};
ghost use Rattle.open_rows.specs.Masked.{as_complex, masked, masked_pair};
ghost use Rattle.contributions.specs.TermContributions.{commutator_contributions, noise_contributions};
ghost use Rattle.outside_sites.specs.SystemItems.{system_items};
ghost use Rattle.open_rows.specs.OpenRows.{system_row};

mod fitting;
mod given;
pub mod noise_row;

use crate::fitting::{pairs_fit, terms_fit};
use crate::given::{pairs_given, terms_given};
use complex::Complex;
use open_system::PauliLindbladOpenSystem;
use outside_sites::outside_site;
use refusal::Refusal;
use row_entries::{MOST_SPINS, superoperator_size};
use rows::Row;
use term_sets::judging::MaskedTerms;

// The row of terms that fit the spins: there is always room for their contributions.
fn row_of(
    terms: &MaskedTerms<f64>,
    pairs: &MaskedTerms<Complex>,
    spins: u32,
    row: u64,
) -> Result<Row<Complex>, Refusal>
    ensures room { IsOk result }
    ensures given { (h : List Term) (w : List NoiseTerm) → map as_complex terms.now.items ≡ map masked h → pairs.now.items ≡ map masked_pair w → Accepted spins (2 ^ spins * 2 ^ spins) row (system_items h w) → said_row result ≡ gives (open_row_in floats (commutator_contributions spins row h) (noise_contributions spins row w)) }
{
    terms_given(terms, spins, row).row_with(&pairs_given(pairs, spins, row))
}

// The row of an open system's superoperator over `spins` spins: 0 for each part, 7, 9, 8, then the row. What judging hands out gives the row;
// the sets are looked at again only where a mask does not fit the spins.
pub fn row(
    s: &PauliLindbladOpenSystem,
    spins: u32,
    row: u64,
    out_columns: &mut [u64],
    out_re: &mut [f64],
    out_im: &mut [f64],
) -> Result<usize, Refusal>
    ensures { RowCall (system_row s.now spins row) (said_delivery result) out_columns.old out_columns.new out_re.old out_re.new out_im.old out_im.new }
{
    let Some(terms) = s.system.terms.masked(false) else {
        return Err(Refusal::Malformed);
    };
    let Some(pairs) = s.noise.set.masked(false) else {
        return Err(Refusal::Malformed);
    };
    if MOST_SPINS < spins {
        return Err(Refusal::TooManySpins);
    }
    if superoperator_size(spins) <= row {
        return Err(Refusal::RowOutOfRange);
    }
    if !terms_fit(&terms, spins) || !pairs_fit(&pairs, spins) {
        if let Some(site) = outside_site(&s.system.complex_terms(), &s.noise.set, spins) {
            return Err(Refusal::SiteOutsideSpins(site));
        }
    }
    row_of(&terms, &pairs, spins, row)?.deliver(out_columns, out_re, out_im)
}
