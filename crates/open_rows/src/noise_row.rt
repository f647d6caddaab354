// Rows of noise sets, into lent buffers.
ghost use Rattle.rows.specs.Buffers.{said_delivery};
ghost use Rattle.rows.specs.Calls.{RowCall};
ghost use Rattle.open_rows.specs.NoiseRows.{noise_row};

use crate::fitting::pairs_fit;
use crate::given::pairs_given;
use noise::PauliLindbladNoiseOperator;
use outside_sites::of_noise;
use refusal::Refusal;
use row_entries::{MOST_SPINS, superoperator_size};

// The row of a noise operator's superoperator over `spins` spins: the columns with a contribution, zero sums kept. The set is looked at again only where
// a mask does not fit the spins.
pub fn noise_row(
    s: &PauliLindbladNoiseOperator,
    spins: u32,
    row: u64,
    out_columns: &mut [u64],
    out_re: &mut [f64],
    out_im: &mut [f64],
) -> Result<usize, Refusal>
    ensures { RowCall (noise_row s.now spins row) (said_delivery result) out_columns.old out_columns.new out_re.old out_re.new out_im.old out_im.new }
{
    let Some(pairs) = s.set.masked(false) else {
        return Err(Refusal::Malformed);
    };
    if MOST_SPINS < spins {
        return Err(Refusal::TooManySpins);
    }
    if superoperator_size(spins) <= row {
        return Err(Refusal::RowOutOfRange);
    }
    if !pairs_fit(&pairs, spins) {
        if let Some(site) = of_noise(&s.set, spins) {
            return Err(Refusal::SiteOutsideSpins(site));
        }
    }
    pairs_given(&pairs, spins, row)
        .row(true)
        .deliver(out_columns, out_re, out_im)
}
