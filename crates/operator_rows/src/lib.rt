// Rows of operators and Hamiltonians, and of their commutators.
#![tactic(auto)]

ghost use Rattle.std.specs.Prelude.{true, ◌≡◌, ◌≤◌, length};
ghost use Rattle.rows.specs.Buffers.{said_delivery};
ghost use Rattle.rows.specs.Calls.{RowCall};
ghost use Rattle.rows.specs.Entries.{said_row};
ghost use Rattle.term_sets.specs.Complexes.{held_by, items_of};
ghost use Rattle.items.specs.Record.{valid};
ghost use Rattle.letters.specs.Matrices.{pauli};
ghost use Rattle.terms.specs.Keyed.{each};
ghost use Rattle.terms.specs.Setting.{most_terms};
ghost use Rattle.operator_rows.specs.OperatorRows.{operator_row_of, commutator_row_of, operator_row, commutator_row, hamiltonian_row, hamiltonian_commutator_row};

mod sums;

use crate::sums::{commutator_given, operator_given};
use complex::Complex;
use hamiltonians::PauliHamiltonian;
use operators::PauliOperator;
use outside_sites::of_operator;
use refusal::Refusal;
use row_entries::{MOST_SPINS, size_of, superoperator_size};
use rows::Row;
use term_sets::TermSet;

// The row of valid terms: 7, 9, 8, then the row, zero sums kept.
fn operator_row_of(s: &TermSet, spins: u32, row: u64) -> Result<Row<Complex>, Refusal>
    requires few { length (held_by s.now) ≤ most_terms }
    requires valid { each (λ p ps. valid p) (items_of (held_by s.now)) ≡ true }
    ensures { said_row result ≡ operator_row_of pauli spins row (held_by s.now) }
{
    if MOST_SPINS < spins {
        return Err(Refusal::TooManySpins);
    }
    if size_of(spins) <= row {
        return Err(Refusal::RowOutOfRange);
    }
    match of_operator(s, spins) {
        Some(site) => Err(Refusal::SiteOutsideSpins(site)),
        None => Ok(operator_given(s, spins, row).row(true)),
    }
}

// The commutator's row of valid terms: zero sums are absent.
fn commutator_row_of(s: &TermSet, spins: u32, row: u64) -> Result<Row<Complex>, Refusal>
    requires few { length (held_by s.now) ≤ most_terms }
    requires valid { each (λ p ps. valid p) (items_of (held_by s.now)) ≡ true }
    ensures { said_row result ≡ commutator_row_of spins row (held_by s.now) }
{
    if MOST_SPINS < spins {
        return Err(Refusal::TooManySpins);
    }
    if superoperator_size(spins) <= row {
        return Err(Refusal::RowOutOfRange);
    }
    match of_operator(s, spins) {
        Some(site) => Err(Refusal::SiteOutsideSpins(site)),
        None => Ok(commutator_given(s, spins, row).row(false)),
    }
}

// The row of an operator's matrix over `spins` spins: the columns with a contribution, zero sums kept.
pub fn operator_row(
    s: &PauliOperator,
    spins: u32,
    row: u64,
    out_columns: &mut [u64],
    out_re: &mut [f64],
    out_im: &mut [f64],
) -> Result<usize, Refusal>
    ensures { RowCall (operator_row s.now spins row) (said_delivery result) out_columns.old out_columns.new out_re.old out_re.new out_im.old out_im.new }
{
    if !s.is_valid() {
        return Err(Refusal::Malformed);
    }
    operator_row_of(&s.terms, spins, row)?.deliver(out_columns, out_re, out_im)
}

// The row of -i(Hρ - ρH) for an operator H, as a matrix on the entries of ρ: zero sums absent.
pub fn commutator_row(
    s: &PauliOperator,
    spins: u32,
    row: u64,
    out_columns: &mut [u64],
    out_re: &mut [f64],
    out_im: &mut [f64],
) -> Result<usize, Refusal>
    ensures { RowCall (commutator_row s.now spins row) (said_delivery result) out_columns.old out_columns.new out_re.old out_re.new out_im.old out_im.new }
{
    if !s.is_valid() {
        return Err(Refusal::Malformed);
    }
    commutator_row_of(&s.terms, spins, row)?.deliver(out_columns, out_re, out_im)
}

// The row of a Hamiltonian's matrix.
pub fn hamiltonian_row(
    h: &PauliHamiltonian,
    spins: u32,
    row: u64,
    out_columns: &mut [u64],
    out_re: &mut [f64],
    out_im: &mut [f64],
) -> Result<usize, Refusal>
    ensures { RowCall (hamiltonian_row h.now spins row) (said_delivery result) out_columns.old out_columns.new out_re.old out_re.new out_im.old out_im.new }
{
    if !h.is_valid() {
        return Err(Refusal::Malformed);
    }
    operator_row_of(&h.complex_terms(), spins, row)?.deliver(out_columns, out_re, out_im)
}

// The row of a Hamiltonian's commutator.
pub fn hamiltonian_commutator_row(
    h: &PauliHamiltonian,
    spins: u32,
    row: u64,
    out_columns: &mut [u64],
    out_re: &mut [f64],
    out_im: &mut [f64],
) -> Result<usize, Refusal>
    ensures { RowCall (hamiltonian_commutator_row h.now spins row) (said_delivery result) out_columns.old out_columns.new out_re.old out_re.new out_im.old out_im.new }
{
    if !h.is_valid() {
        return Err(Refusal::Malformed);
    }
    commutator_row_of(&h.complex_terms(), spins, row)?.deliver(out_columns, out_re, out_im)
}
