// The rows of a system over one spin, printed.
ghost use Rattle.std.specs.Prelude.{◌≤◌, ◌*◌};
ghost use Rattle.rows.specs.Buffers.{most_entries};

use printing::{Places, print_entries};
use spins::{PauliLindbladOpenSystem, exact_row};

const SPINS: u32 = 1;

const ROWS: u64 = 4;

// An exact row into lent places; how many entries it has, none where it is refused.
fn row_into(s: &PauliLindbladOpenSystem, row: u64, lent: &mut Places) -> usize
    ensures { result ≤ most_entries }
{
    let answer = exact_row(s, SPINS, row, &mut lent.columns, &mut lent.re, &mut lent.im);
    answer.unwrap_or(0)
}

// How many entries all rows have.
fn entries_of(s: &PauliLindbladOpenSystem) -> usize
    ensures { result ≤ most_entries * ROWS }
{
    let mut lent = Places::new();
    let mut entries = 0;
    for row in 0..ROWS {
        entries += row_into(s, row, &mut lent);
    }
    entries
}

// A header, and then the rows, each by ascending column. What can't be printed is passed over.
pub(crate) fn print_rows(rt: &impl Print, s: &PauliLindbladOpenSystem) {
    let _ = println!(rt; "spins {SPINS} entries {}", entries_of(s));
    let mut lent = Places::new();
    for row in 0..ROWS {
        let n = row_into(s, row, &mut lent);
        print_entries(rt, row, n, &lent);
    }
}
