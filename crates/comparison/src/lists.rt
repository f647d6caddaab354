// A list of calls on a Hamiltonian and a noise set, then their open system's row: opcode 33.
use crate::arguments::{Argument, Told, Written};
use crate::calls::{Call, CallOn, agrees};
use crate::fault::Fault;
use crate::forms::{Form, Place};
use crate::reader::Reader;
use crate::replies::Reply;
use crate::row_answers::{Row, RowOf};
use crate::sets::Set;
use spins::{
    Complex, DecoherenceOperator, PauliHamiltonian, PauliLindbladNoiseOperator,
    PauliLindbladOpenSystem, Refusal, open_row,
};

#[derive(Drop)]
enum Step {
    System(CallOn<PauliHamiltonian>),
    Noise(CallOn<PauliLindbladNoiseOperator>),
    // `add_noise_from_full_operators`.
    Full(Written<DecoherenceOperator>, Written<DecoherenceOperator>, Complex),
}

impl Form for Step {
    fn read(reader: &mut Reader<'_>) -> Result<Self, Fault> {
        let which: u8 = reader.read()?;
        match which {
            0 => Ok(Step::System(changing(reader.read()?)?)),
            1 => Ok(Step::Noise(changing(reader.read()?)?)),
            2 => Ok(Step::Full(reader.read()?, reader.read()?, reader.read()?)),
            _ => Err(Fault::Unparsed),
        }
    }
}

// A call that may stand in a list: `get` stands in none.
fn changing<K: Drop, V: Drop>(call: Call<K, V>) -> Result<Call<K, V>, Fault> {
    match call {
        Call::Get(_) => Err(Fault::Unparsed),
        _ => Ok(call),
    }
}

impl Step {
    // Makes the call; whether the answer is what the Rust replied.
    fn agrees(&self, open: &mut PauliLindbladOpenSystem, told: Reply) -> Result<bool, Refusal> {
        match self {
            Step::System(call) => agrees(&mut open.system, *call, told),
            Step::Noise(call) => agrees(&mut open.noise, *call, told),
            Step::Full(left, right, value) => {
                let (left, right) = (left.build()?, right.build()?);
                let ours = open
                    .noise
                    .add_noise_from_full_operators(&left, &right, *value);
                told.agrees(ours.map(|_| Reply::Done))
            }
        }
    }
}

pub(crate) fn compared(reader: &mut Reader<'_>) -> Result<bool, Fault> {
    let steps: Vec<(Step, Reply)> = reader.read()?;
    let place: Place = reader.read()?;
    let system: Told<PauliHamiltonian> = reader.read()?;
    let noise: Told<PauliLindbladNoiseOperator> = reader.read()?;
    let told: Row = reader.read()?;
    reader.end()?;
    let mut open = PauliLindbladOpenSystem::new();
    let mut same = true;
    for (step, reply) in &steps {
        same &= step.agrees(&mut open, *reply)?;
    }
    let sets = open.system.holds(&system.list) && open.noise.holds(&noise.list);
    let row = RowOf {
        set: open,
        place,
        told,
    };
    let rows = row.agrees(open_row)?;
    Ok(same && sets && rows)
}
