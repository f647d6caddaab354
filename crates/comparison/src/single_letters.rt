// Records on single letters, opcodes 40 to 44.
use crate::answers::is_power;
use crate::fault::Fault;
use crate::forms::{Form, Sign};
use crate::reader::Reader;
use spins::{Complex, Kind, Refusal, Scaled};

// A letter and its power of i, beside the Rust's letter and number.
fn scaled_told<F: Form + Into<Complex>>(
    reader: &mut Reader<'_>,
    ours: Result<Scaled, Refusal>,
) -> Result<bool, Fault> {
    let (letter, factor): (u8, F) = reader.read()?;
    reader.end()?;
    let ours = ours?;
    Ok(ours.letter == letter && is_power(ours.power, factor))
}

fn multiply<F: Form + Into<Complex>>(kind: Kind, reader: &mut Reader<'_>) -> Result<bool, Fault> {
    let (left, right) = reader.read()?;
    scaled_told::<F>(reader, kind.multiply(left, right))
}

fn convert(kind: Kind, reader: &mut Reader<'_>) -> Result<bool, Fault> {
    let letter = reader.read()?;
    scaled_told::<Complex>(reader, kind.convert(letter))
}

fn conjugate(kind: Kind, reader: &mut Reader<'_>) -> Result<bool, Fault> {
    let letter = reader.read()?;
    scaled_told::<Sign>(reader, kind.conjugate(letter))
}

pub(crate) fn compared(op: u8, reader: &mut Reader<'_>) -> Result<bool, Fault> {
    match op {
        40 => multiply::<Complex>(Kind::Pauli, reader),
        41 => multiply::<Sign>(Kind::Decoherence, reader),
        42 => conjugate(Kind::Decoherence, reader),
        43 => convert(Kind::Decoherence, reader),
        44 => convert(Kind::Pauli, reader),
        _ => Err(Fault::Unparsed),
    }
}
