// The entries on single letters, given two letters.
use crate::numbers::Numbers;
use crate::report::told;
use spins::Kind;
use std::io;

pub(crate) fn call(rt: &impl Print, entry: u64, numbers: &mut Numbers) -> io::Result<()> {
    let x = numbers.small();
    let answer = match entry {
        0 => Kind::Pauli.multiply(x, numbers.small()),
        1 => Kind::Decoherence.multiply(x, numbers.small()),
        2 => Kind::Decoherence.conjugate(x),
        3 => Kind::Decoherence.convert(x),
        _ => Kind::Pauli.convert(x),
    };
    told(rt, answer, "")
}
