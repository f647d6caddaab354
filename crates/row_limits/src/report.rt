// What a row call delivers into lent buffers, printed on one line.
use observations::buffers::{Buffers, Room};
use observations::records::bits;
use spins::{PauliLindbladOpenSystem, open_row};
use std::fmt;
use std::fmt::{Display, Formatter};

// The modulus of the sums.
const PRIME: u64 = 1000000007;

// A sum that tells the order of what it takes in.
fn taken_in(sum: u64, x: u64) -> u64 {
    (sum % PRIME * 31 + x % PRIME) % PRIME
}

// The bits of a part, 0 for both zeros.
fn unsigned_bits(x: f64) -> u64 {
    if x == 0.0 { 0 } else { bits(x) }
}

fn column_sum(columns: &[u64]) -> u64 {
    columns.iter().fold(0, |sum, x| taken_in(sum, *x))
}

fn part_sum(parts: &[f64]) -> u64 {
    parts
        .iter()
        .fold(0, |sum, x| taken_in(sum, unsigned_bits(*x)))
}

// A whole number of 16 bits with its sign, and ? for any other.
#[derive(Clone, Copy)]
struct Part(f64);

impl Display for Part {
    fn fmt<W: fmt::Write>(&self, f: &mut Formatter<W>) -> fmt::Result {
        let n = std::num::saturating_f64_to_i16(self.0);
        if f64::from(n) == self.0 {
            write!(f, "{n}")
        } else {
            f.write_str("?")
        }
    }
}

// An entry: column, real part, imaginary part.
#[derive(Clone, Copy)]
struct Entry {
    column: u64,
    re: Part,
    im: Part,
}

impl Display for Entry {
    fn fmt<W: fmt::Write>(&self, f: &mut Formatter<W>) -> fmt::Result {
        write!(f, "{} {} {}", self.column, self.re, self.im)
    }
}

// The entries that a call delivered.
#[derive(Clone, Copy)]
struct Delivered<'a> {
    columns: &'a [u64],
    re: &'a [f64],
    im: &'a [f64],
}

impl<'a> Delivered<'a> {
    fn new(buffers: &'a Buffers<f64>, n: usize) -> Delivered<'a> {
        Delivered {
            columns: &buffers.columns[..n.min(buffers.columns.len())],
            re: &buffers.re[..n.min(buffers.re.len())],
            im: &buffers.im[..n.min(buffers.im.len())],
        }
    }
}

// The count, the sums of columns and parts, and the first entries, at most three.
impl Display for Delivered<'_> {
    fn fmt<W: fmt::Write>(&self, f: &mut Formatter<W>) -> fmt::Result {
        let columns = column_sum(self.columns);
        let (re, im) = (part_sum(self.re), part_sum(self.im));
        write!(f, "count {} sums {columns} {re} {im}", self.columns.len())?;
        for ((column, re), im) in self.columns.iter().zip(self.re).zip(self.im).take(3) {
            let entry = Entry {
                column: *column,
                re: Part(*re),
                im: Part(*im),
            };
            write!(f, "; {entry}")?;
        }
        Ok(())
    }
}

// A row call with some places of each buffer, printed under its name; the count, 0 where it is refused. What can't be printed is passed over.
pub(crate) fn lent(
    rt: &impl Print,
    name: impl Display + Drop,
    s: &PauliLindbladOpenSystem,
    spins: u32,
    row: u64,
    room: Room,
) -> usize {
    let mut buffers = Buffers::new();
    let (columns, re, im) = buffers.lend(room);
    let _ = print!(rt; "{name}: ");
    let answer = open_row(s, spins, row, columns, re, im);
    let _ = match answer {
        Ok(n) => print!(rt; "{}", Delivered::new(&buffers, n)),
        Err(why) => print!(rt; "refused {why}"),
    };
    let n = answer.unwrap_or(0);
    let rest = if buffers.kept(n) { "ok" } else { "changed" };
    let _ = println!(rt; "; rest {rest}");
    n
}
