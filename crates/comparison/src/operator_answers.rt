// Records on whole sets, opcodes 21 to 24, 34 to 37, 39 and 45 to 48.
use crate::arguments::{Argument, Scaled, Told, Written};
use crate::fault::Fault;
use crate::reader::Reader;
use crate::sets::Set;
use spins::{
    DecoherenceOperator, PauliHamiltonian, PauliLindbladNoiseOperator, PauliOperator, Refusal,
    SITE_COUNT, Site,
};

// A call on a set, beside the terms of what it gives.
fn unary<A: Argument, R: Set, F: FnOnce(&A::Of) -> Result<R, Refusal>>(
    reader: &mut Reader<'_>,
    call: F,
) -> Result<bool, Fault>
    requires { F.IsAlwaysCallable call }
{
    let argument: A = reader.read()?;
    let told: Told<R> = reader.read()?;
    reader.end()?;
    let ours = call(&argument.build()?)?;
    Ok(ours.holds(&told.list))
}

// A call on two sets.
fn binary<A: Argument, R: Set, F: FnOnce(&A::Of, &A::Of) -> Result<R, Refusal>>(
    reader: &mut Reader<'_>,
    call: F,
) -> Result<bool, Fault>
    requires { F.IsAlwaysCallable call }
{
    let (left, right): (A, Written<A::Of>) = reader.read()?;
    let told: Told<R> = reader.read()?;
    reader.end()?;
    let ours = call(&left.build()?, &right.build()?)?;
    Ok(ours.holds(&told.list))
}

fn remap(reader: &mut Reader<'_>) -> Result<bool, Fault> {
    let operator: Written<PauliLindbladNoiseOperator> = reader.read()?;
    let targets: [Site; SITE_COUNT] = reader.read()?;
    let told: Told<PauliLindbladNoiseOperator> = reader.read()?;
    reader.end()?;
    let ours = operator.build()?.remap_qubits(targets)?;
    Ok(ours.holds(&told.list))
}

pub(crate) fn compared(op: u8, reader: &mut Reader<'_>) -> Result<bool, Fault> {
    match op {
        21 => binary::<Written<PauliOperator>, _, _>(reader, PauliOperator::multiply),
        22 => binary::<Written<PauliHamiltonian>, _, _>(reader, PauliOperator::from_hamiltonians),
        23 => binary::<Written<DecoherenceOperator>, _, _>(reader, DecoherenceOperator::multiply),
        24 => unary::<Scaled, _, _>(reader, |o| Ok(*o)),
        34 => unary::<Written<PauliOperator>, _, _>(reader, PauliOperator::hermitian_conjugate),
        35 => unary::<Written<DecoherenceOperator>, _, _>(
            reader,
            DecoherenceOperator::hermitian_conjugate,
        ),
        36 => unary::<Written<PauliOperator>, _, _>(
            reader,
            DecoherenceOperator::from_pauli_operator,
        ),
        37 => binary::<Scaled, _, _>(reader, PauliOperator::multiply),
        39 => remap(reader),
        45 => unary::<Written<PauliHamiltonian>, _, _>(
            reader,
            PauliHamiltonian::hermitian_conjugate,
        ),
        46 => unary::<Written<PauliHamiltonian>, _, _>(reader, PauliOperator::from_hamiltonian),
        47 => unary::<Scaled, _, _>(reader, PauliOperator::hermitian_conjugate),
        48 => unary::<Scaled, _, _>(reader, DecoherenceOperator::from_pauli_operator),
        _ => Err(Fault::Unparsed),
    }
}
