// What a term contributes to a row, found from its masks: over any numbers.
#![tactic(auto)]

ghost use Rattle.std.specs.Prelude.{◌≡◌, ℕ, min};
ghost use Rattle.letters.specs.Matrices.{letters_of};
ghost use Rattle.row_entries.specs.Answers.{most_spins};
ghost use Rattle.row_entries.specs.Entries.{operator_entry};
ghost use Rattle.rows.specs.Pairs.{pairs};
ghost use Rattle.contributions.specs.Values.{whole_entry, half_entry, commutator_values, noise_values};

use letters::Kind;
use row_entries::{commutator_entries, noise_entries, operator_entry};
use rows::Entry;
use rows::number::Number;
use term_sets::masks::Masks;

// An entry of a matrix times a coefficient.
fn whole<V: Number>(e: row_entries::Entry, c: V) -> Entry<V>
    ensures { ◌≡◌ {A = ℕ × V} (result.column, result.value) (whole_entry V.numbers c (e.column, e.power)) }
{
    Entry {
        column: e.column,
        value: c.scaled(e.power),
    }
}

// An entry of a matrix times -1/2 times a coefficient.
fn half<V: Number>(e: row_entries::Entry, c: V) -> Entry<V>
    ensures { ◌≡◌ {A = ℕ × V} (result.column, result.value) (half_entry V.numbers c (e.column, e.power)) }
{
    Entry {
        column: e.column,
        value: c.minus_half(e.power),
    }
}

// Of a product with these masks to an operator's row.
pub fn of_operator<V: Number>(kind: Kind, masks: u64, c: V, spins: u32, row: u64) -> Entry<V>
    ensures { ◌≡◌ {A = ℕ × V} (result.column, result.value) (whole_entry V.numbers c (operator_entry (letters_of kind) masks (min spins most_spins) row)) }
{
    whole(operator_entry(kind, masks, spins, row), c)
}

// Of a Pauli product with these masks to a commutator's row: its left half, then its right half.
pub fn of_commutator<V: Number>(masks: u64, c: V, spins: u32, row: u64) -> [Entry<V>; 2]
    ensures { pairs result ≡ commutator_values V.numbers masks c spins row }
{
    let e = commutator_entries(masks, spins, row);
    [whole(e.left, c), whole(e.right, c)]
}

// Of a pair of decoherence products with these masks to a noise row: the jump, then -1/2 of R†L on the left half, then on the right.
pub fn of_noise<V: Number>(masks: Masks, c: V, spins: u32, row: u64) -> [Entry<V>; 3]
    ensures { pairs result ≡ noise_values V.numbers masks.left masks.right c spins row }
{
    let e = noise_entries(masks.left, masks.right, spins, row);
    [whole(e.jump, c), half(e.left, c), half(e.right, c)]
}
