// Rows: contributions sorted by column and added up, and delivered into lent buffers. Over any numbers.
#![tactic(auto)]

ghost use Rattle.std.specs.Prelude.{◌≡◌, ◌+◌, ◌≤◌, [], leb, length};
ghost use Rattle.refusal.specs.Refusals.{said_done};
ghost use Rattle.rows.specs.Pairs.{pairs};
ghost use Rattle.rows.specs.Entries.{contributions_of, entries_of, said_row};
ghost use Rattle.rows.specs.Buffers.{most_entries};
ghost use Rattle.rows.specs.Calls.{unless_malformed};
ghost use Rattle.rows.specs.Placing.{row_in, open_row_in};
ghost use Rattle.rows.specs.Room.{added_where_room, done_where_room};
ghost use Rattle.rows.specs.Plus.{plus};

mod delivery;
pub mod number;
mod sums;

use crate::number::Number;
use crate::sums::{added_up, columns_of};
use arrayvec::ArrayVec;
use refusal::Refusal;
use sorting::{merged_places, sorted_places};

// The most contributions to a row: 2 of each of 64 terms of a Hamiltonian and 3 of each of 64 pairs of noise.
pub const MOST_ENTRIES: usize = 320;

// A column and a number: an entry of a row, or a contribution to one.
#[derive(Clone, Copy, Default)]
pub struct Entry<V> {
    pub column: u64,
    pub value: V,
}

impl<V: Number> Entry<V> {
    // With a number added to its own.
    pub(crate) fn plus(self, value: V) -> Self
        ensures { result ≡ plus V.numbers.sum self value }
    {
        Entry {
            column: self.column,
            value: self.value.sum(value),
        }
    }
}

// Contributions to a row, in their order.
#[derive(Drop)]
pub struct Contributions<V> {
    entries: ArrayVec<Entry<V>, MOST_ENTRIES>,
}

// A row: entries by ascending column.
#[derive(Drop)]
pub struct Row<V> {
    pub(crate) entries: ArrayVec<Entry<V>, MOST_ENTRIES>,
}

impl<V: Number> Contributions<V> {
    // None.
    pub fn new() -> Self
        ensures { contributions_of result ≡ [] }
    {
        Contributions {
            entries: ArrayVec::new(),
        }
    }

    // More of them, where there is room for all; else they stay as they are.
    pub fn add(&mut self, es: &[Entry<V>]) -> Result<(), Refusal>
        ensures answer { said_done result ≡ done_where_room (pairs es.now) (contributions_of self.old) }
        ensures list { contributions_of self.new ≡ added_where_room (pairs es.now) (contributions_of self.old) }
    {
        if self.entries.try_extend_from_slice(es).is_err() {
            return Err(Refusal::Malformed);
        }
        Ok(())
    }

    // In their order.
    pub fn entries(&self) -> &[Entry<V>]
        ensures list { pairs result.now ≡ contributions_of self.now }
        ensures few { length result.now ≤ most_entries }
    {
        self.entries.as_slice()
    }

    // Their row, with zero sums or without.
    pub fn row(&self, zeros: bool) -> Row<V>
        ensures { entries_of result ≡ row_in V.numbers zeros (contributions_of self.now) }
    {
        let es = self.entries.as_slice();
        let places = sorted_places(&columns_of(es), es.len());
        let mut entries = added_up(es, &places[..es.len()]);
        entries.retain(|e| zeros || !e.value.is_zero());
        Row { entries }
    }

    // An open system's row, of the contributions of its commutator and of its noise: both together at most as many as a row has room for.
    pub fn row_with(&self, noise: &Self) -> Result<Row<V>, Refusal>
        ensures { said_row result ≡ unless_malformed (leb (length (contributions_of self.now) + length (contributions_of noise.now)) most_entries) (open_row_in V.numbers (contributions_of self.now) (contributions_of noise.now)) }
    {
        if MOST_ENTRIES - self.entries.len() < noise.entries.len() {
            return Err(Refusal::Malformed);
        }
        let mut both = self.row(false).entries;
        let more = noise.row(true).entries;
        let count = both.len();
        if both.try_extend_from_slice(&more).is_err() {
            return Err(Refusal::Malformed);
        }
        let places = merged_places(&columns_of(&both), count, more.len());
        let entries = added_up(&both, &places[..both.len()]);
        Ok(Row { entries })
    }
}
