// Contributions added up by column, in the order of their places.
ghost use Rattle.std.specs.Prelude.{◌≡◌, ◌<◌, ◌≤◌, ℕ, map, length, slice_index_or, slice_set};
ghost use Rattle.sorted_lists.specs.Sorting.{All};
ghost use Rattle.rows.specs.Buffers.{most_entries};
ghost use Rattle.rows.specs.Neighbours.{neighbours_added};
ghost use Rattle.rows.specs.Pairs.{pair, pairs};
ghost use Rattle.rows.specs.declared.Entry.{Entry};

use crate::number::Number;
use crate::{Entry, MOST_ENTRIES};
use arrayvec::ArrayVec;

// A column put at a place. Code at type parameters learns here how many places there are.
fn put(columns: &mut [u64; MOST_ENTRIES], at: usize, column: u64)
    requires { at < most_entries }
    ensures { (columns.new ≡ slice_set columns.old at column) × (length columns.old ≡ most_entries) }
{
    columns[at] = column;
}

// The columns of entries, and zeros after them.
pub(crate) fn columns_of<V: Number>(es: &[Entry<V>]) -> [u64; MOST_ENTRIES]
    requires { length es.now ≤ most_entries }
    ensures { (i : ℕ) (d : Entry V) → i < length es.now → slice_index_or result i 0 ≡ (slice_index_or es.now i d).column }
{
    let mut columns = [0; MOST_ENTRIES];
    for (i, e) in es.iter().enumerate() {
        put(&mut columns, i, e.column);
    }
    columns
}

// The entries at places, neighbours of one column added from left to right.
pub(crate) fn added_up<V: Number>(
    es: &[Entry<V>],
    places: &[usize],
) -> ArrayVec<Entry<V>, MOST_ENTRIES>
    requires { (length places.now ≤ most_entries) × All (λ p. p < length es.now) places.now }
    ensures few { length result.items ≤ length places.now }
    ensures sums { (f : ℕ → ℕ × V) → ((p : ℕ) (d : Entry V) → p < length es.now → f p ≡ pair (slice_index_or es.now p d)) → pairs result.items ≡ neighbours_added V.numbers.sum (map f places.now) }
{
    let mut out = ArrayVec::new();
    let Some((&first, rest)) = places.split_first() else {
        return out;
    };
    let mut last = es[first];
    for &at in rest {
        let e = es[at];
        if e.column == last.column {
            last = last.plus(e.value);
        } else {
            out.push(last);
            last = e;
        }
    }
    out.push(last);
    out
}
