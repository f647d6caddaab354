// What the Rust replied to a call, and our answer beside it.
use crate::fault::Fault;
use crate::forms::Form;
use crate::reader::Reader;
use observations::records::Same;
use spins::{Complex, Refusal};

#[derive(Clone, Copy)]
pub(crate) enum Reply {
    Done,
    // The key was free.
    Free,
    // The coefficient asked for, or the one replaced.
    Coefficient(Complex),
    // Refused with 4.
    EmptySide,
}

impl Form for Reply {
    fn read(reader: &mut Reader<'_>) -> Result<Self, Fault> {
        let tag: u8 = reader.read()?;
        match tag {
            0 => Ok(Reply::Done),
            1 => Ok(Reply::Free),
            2 => Ok(Reply::Coefficient(reader.read()?)),
            4 => Ok(Reply::EmptySide),
            _ => Err(Fault::Unparsed),
        }
    }
}

impl Reply {
    pub(crate) fn is_coefficient(self, value: Complex) -> bool {
        match self {
            Reply::Coefficient(told) => value.same(false, &told),
            _ => false,
        }
    }

    fn is(self, ours: Reply) -> bool {
        match (ours, self) {
            (Reply::Done, Reply::Done) => true,
            (Reply::Free, Reply::Free) => true,
            (Reply::Coefficient(value), told) => told.is_coefficient(value),
            _ => false,
        }
    }

    // Whether our answer is this one. Where the Rust refuses, ours has to be the same refusal.
    pub(crate) fn agrees(self, ours: Result<Reply, Refusal>) -> Result<bool, Refusal> {
        match self {
            Reply::EmptySide => Ok(ours.err() == Some(Refusal::EmptySide)),
            _ => Ok(self.is(ours?)),
        }
    }
}
