// Why a record is not compared.
use spins::Refusal;
use std::alloc::AllocError;

#[derive(Clone, Copy, Debug)]
pub(crate) enum Fault {
    // The record is not of the form.
    Unparsed,
    // Refused where the Rust answers.
    Refused,
    // Memory ran out.
    Memory(AllocError),
}

impl From<Refusal> for Fault {
    fn from(_why: Refusal) -> Fault {
        Fault::Refused
    }
}

impl From<AllocError> for Fault {
    fn from(error: AllocError) -> Fault {
        Fault::Memory(error)
    }
}
