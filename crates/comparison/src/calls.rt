// Calls on sets, opcodes 17 to 20 and 38: a verb, a key, a number and the Rust's reply each.
use crate::arguments::{Argument, Empty, Scaled, Told};
use crate::fault::Fault;
use crate::forms::Form;
use crate::reader::Reader;
use crate::replies::Reply;
use crate::sets::Set;
use spins::{
    Complex, DecoherenceOperator, PauliHamiltonian, PauliLindbladNoiseOperator, PauliOperator,
    Refusal,
};

#[derive(Clone, Copy)]
pub(crate) enum Call<K, V> {
    Set(K, V),
    Add(K, V),
    Get(K),
}

impl<K: Form, V: Form> Form for Call<K, V> {
    fn read(reader: &mut Reader<'_>) -> Result<Self, Fault> {
        let (verb, key): (u8, K) = reader.read()?;
        match verb {
            0 => Ok(Call::Set(key, reader.read()?)),
            1 => Ok(Call::Add(key, reader.read()?)),
            2 => {
                let _unused: Complex = reader.read()?;
                Ok(Call::Get(key))
            }
            _ => Err(Fault::Unparsed),
        }
    }
}

// A call on a set of this type.
pub(crate) type CallOn<S> = Call<<S as Set>::Key, <S as Set>::Value>;

fn answer<S: Set>(set: &mut S, call: CallOn<S>) -> Result<Reply, Refusal> {
    match call {
        Call::Set(key, value) => match set.set(key, value)? {
            Some(before) => Ok(Reply::Coefficient(before)),
            None => Ok(Reply::Free),
        },
        Call::Add(key, value) => {
            set.add(key, value)?;
            Ok(Reply::Done)
        }
        Call::Get(key) => Ok(Reply::Coefficient(set.get(key)?)),
    }
}

// The recorded difference: the coefficient of a pair with an empty side is zero in the Rust and refused with 4 here.
fn empty_side_agrees(ours: Result<Reply, Refusal>, told: Reply) -> bool {
    told.is_coefficient(Complex { re: 0.0, im: 0.0 }) && ours.err() == Some(Refusal::EmptySide)
}

// Makes a call; whether the set answers what the Rust replied.
pub(crate) fn agrees<S: Set>(set: &mut S, call: CallOn<S>, told: Reply) -> Result<bool, Refusal> {
    let ours = answer(set, call);
    match call {
        Call::Get(key) if S::has_empty_side(key) => Ok(empty_side_agrees(ours, told)),
        _ => told.agrees(ours),
    }
}

// A set, calls on it, and its terms after them.
fn calls<A: Argument>(reader: &mut Reader<'_>) -> Result<bool, Fault> {
    let start: A = reader.read()?;
    let calls: Vec<(CallOn<A::Of>, Reply)> = reader.read()?;
    let told: Told<A::Of> = reader.read()?;
    reader.end()?;
    let mut set = start.build()?;
    let mut same = true;
    for (call, reply) in &calls {
        same &= agrees(&mut set, *call, *reply)?;
    }
    Ok(same && set.holds(&told.list))
}

pub(crate) fn compared(op: u8, reader: &mut Reader<'_>) -> Result<bool, Fault> {
    match op {
        17 => calls::<Empty<PauliOperator>>(reader),
        18 => calls::<Empty<PauliHamiltonian>>(reader),
        19 => calls::<Empty<DecoherenceOperator>>(reader),
        20 => calls::<Empty<PauliLindbladNoiseOperator>>(reader),
        38 => calls::<Scaled>(reader),
        _ => Err(Fault::Unparsed),
    }
}
