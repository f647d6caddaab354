// Records on rows of operators, Hamiltonians, noise and open systems, opcodes 25 to 32, and rows beside those written.
use crate::arguments::{Argument, Written};
use crate::fault::Fault;
use crate::forms::{Form, Place};
use crate::reader::Reader;
use crate::sets::Set;
use observations::buffers::{Buffers, PLACES, Room};
use observations::records::Same;
use spins::{
    Complex, PauliHamiltonian, PauliLindbladNoiseOperator, PauliLindbladOpenSystem, PauliOperator,
    ProductEntry, Refusal, commutator_row, hamiltonian_commutator_row, hamiltonian_row, noise_row,
    open_row, operator_row,
};

// The most entries of a row.
const ENTRIES: usize = 320;

#[derive(Clone, Copy)]
pub(crate) struct Entry {
    pub column: u64,
    pub value: Complex,
}

impl Form for Entry {
    fn read(reader: &mut Reader<'_>) -> Result<Self, Fault> {
        let (column, value) = reader.read()?;
        Ok(Entry { column, value })
    }
}

// A count of at most 320 entries.
#[derive(Drop)]
pub(crate) struct Row {
    pub entries: Vec<Entry>,
}

impl Form for Row {
    fn read(reader: &mut Reader<'_>) -> Result<Self, Fault> {
        let count: u16 = reader.read()?;
        let count = usize::from(count);
        if ENTRIES < count {
            return Err(Fault::Unparsed);
        }
        Ok(Row {
            entries: reader.list(count)?,
        })
    }
}

impl Entry {
    fn is(&self, column: u64, re: f64, im: f64) -> bool {
        self.column == column && self.value.same(false, &Complex { re, im })
    }
}

impl Row {
    // Whether the row has this entry and no other.
    pub(crate) fn is_one(&self, entry: ProductEntry) -> bool {
        let (re, im) = (entry.factor.re, entry.factor.im);
        self.entries.len() == 1 && self.entries.iter().all(|e| e.is(entry.column, re, im))
    }

    // Whether so many entries, delivered into buffers, are the row; past them the buffers have to be as before the call.
    fn is_delivered(&self, count: usize, buffers: &Buffers<f64>) -> bool {
        let places = buffers.columns.iter().zip(&buffers.re).zip(&buffers.im);
        let mut pairs = places.zip(&self.entries);
        let same = pairs.all(|(((column, re), im), e)| e.is(*column, *re, *im));
        count == self.entries.len() && same && buffers.kept(count)
    }
}

// The row of a set at a place, as it is written.
#[derive(Drop)]
pub(crate) struct RowOf<S> {
    pub set: S,
    pub place: Place,
    pub told: Row,
}

impl<S> RowOf<S> {
    // Whether a call delivers this row.
    pub(crate) fn agrees<
        F: FnOnce(&S, u32, u64, &mut [u64], &mut [f64], &mut [f64]) -> Result<usize, Refusal>,
    >(&self, deliver: F) -> Result<bool, Fault>
        requires { F.IsAlwaysCallable deliver }
    {
        let Place { spins, row } = self.place;
        let mut buffers = Buffers::new();
        let (columns, re, im) = buffers.lend(Room::each(PLACES));
        let count = deliver(&self.set, spins, row, columns, re, im)?;
        Ok(self.told.is_delivered(count, &buffers))
    }
}

fn written<S: Set>(reader: &mut Reader<'_>) -> Result<RowOf<S>, Fault> {
    let set: Written<S> = reader.read()?;
    let (place, told) = reader.read()?;
    reader.end()?;
    let set = set.build()?;
    Ok(RowOf { set, place, told })
}

// The same where a number after the place multiplies the operator first.
fn scaled(reader: &mut Reader<'_>) -> Result<RowOf<PauliOperator>, Fault> {
    let (operator, place): (Written<PauliOperator>, Place) = reader.read()?;
    let (factor, told): (Complex, Row) = reader.read()?;
    reader.end()?;
    let set = operator.build()?.scale(factor)?;
    Ok(RowOf { set, place, told })
}

fn system(reader: &mut Reader<'_>) -> Result<RowOf<PauliLindbladOpenSystem>, Fault> {
    let system: Written<PauliHamiltonian> = reader.read()?;
    let noise: Written<PauliLindbladNoiseOperator> = reader.read()?;
    let (place, told) = reader.read()?;
    reader.end()?;
    let set = PauliLindbladOpenSystem {
        system: system.build()?,
        noise: noise.build()?,
    };
    Ok(RowOf { set, place, told })
}

pub(crate) fn compared(op: u8, reader: &mut Reader<'_>) -> Result<bool, Fault> {
    match op {
        25 => written(reader)?.agrees(operator_row),
        26 => written(reader)?.agrees(hamiltonian_row),
        27 => written(reader)?.agrees(commutator_row),
        28 => written(reader)?.agrees(hamiltonian_commutator_row),
        29 => written(reader)?.agrees(noise_row),
        30 => scaled(reader)?.agrees(commutator_row),
        31 => scaled(reader)?.agrees(operator_row),
        32 => system(reader)?.agrees(open_row),
        _ => Err(Fault::Unparsed),
    }
}
