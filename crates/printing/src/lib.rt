// The entries of an exact row, printed: what `worked` and `example` write.
#![tactic(auto)]

ghost use Rattle.std.specs.Prelude.{◌≡◌, take, length, min, replicate, pos, Some};
ghost use Rattle.rows.specs.Buffers.{most_entries};
ghost use Rattle.printing.specs.Lines.{entry_line, row_lines};

use std::fmt;
use std::fmt::{Display, Formatter};

// The most entries that a row has.
pub const MOST_ENTRIES: usize = 320;

// What a row call is lent: places for columns, real halves and imaginary halves.
#[derive(Clone, Copy)]
pub struct Places {
    pub columns: [u64; MOST_ENTRIES],
    pub re: [i64; MOST_ENTRIES],
    pub im: [i64; MOST_ENTRIES],
}

impl Places {
    // Zeros in every place.
    pub fn new() -> Places
        ensures { (result.columns ≡ replicate most_entries 0) × (result.re ≡ replicate most_entries (pos 0)) × (result.im ≡ replicate most_entries (pos 0)) }
    {
        Places {
            columns: [0; MOST_ENTRIES],
            re: [0; MOST_ENTRIES],
            im: [0; MOST_ENTRIES],
        }
    }

    // The first n entries, of a row. Past the last place there is none.
    pub fn entries(&self, row: u64, n: usize) -> Entries<'_>
        ensures count { length result.columns.now ≡ min n most_entries }
        ensures entries { (result.row ≡ row) × (result.columns.now ≡ take n self.now.columns) × (result.re.now ≡ take n self.now.re) × (result.im.now ≡ take n self.now.im) }
    {
        let end = n.min(MOST_ENTRIES);
        Entries {
            row,
            columns: &self.columns[..end],
            re: &self.re[..end],
            im: &self.im[..end],
        }
    }
}

// An entry of a row: its column, and how many halves its parts have.
#[derive(Clone, Copy, PartialEq, Eq, Debug)]
pub struct Entry {
    pub row: u64,
    pub column: u64,
    pub re: i64,
    pub im: i64,
}

// Row, column, real halves, imaginary halves.
impl Display for Entry {
    ghost output = { λ e. Some (entry_line e) };

    fn fmt<W: fmt::Write>(&self, f: &mut Formatter<W>) -> fmt::Result {
        write!(f, "{} {} {} {}", self.row, self.column, self.re, self.im)
    }
}

// Entries of one row, in the order of their places.
#[derive(Clone, Copy)]
pub struct Entries<'a> {
    pub row: u64,
    pub columns: &'a [u64],
    pub re: &'a [i64],
    pub im: &'a [i64],
}

// A line for each entry.
impl Display for Entries<'_> {
    ghost output = { λ e. Some (row_lines e.row e.columns.now e.re.now e.im.now) };

    fn fmt<W: fmt::Write>(&self, f: &mut Formatter<W>) -> fmt::Result {
        for ((column, re), im) in self.columns.iter().zip(self.re).zip(self.im) {
            let entry = Entry {
                row: self.row,
                column: *column,
                re: *re,
                im: *im,
            };
            writeln!(f, "{entry}")?;
        }
        Ok(())
    }
}

// Prints the first n entries of a row, a line each, as far as they can be printed; gives how many there are. Past the last place there is none.
pub fn print_entries(rt: &impl Print, row: u64, n: usize, lent: &Places) -> usize
    ensures { result ≡ min n most_entries }
{
    let entries = lent.entries(row, n);
    let _ = print!(rt; "{entries}");
    entries.columns.len()
}
