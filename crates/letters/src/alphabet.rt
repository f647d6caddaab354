// The kinds of letters as types, for what is of one kind alone.
use crate::Kind;

// The letters that a product or an operator is written in.
pub trait Alphabet: Copy {
    ghost use Rattle.letters.specs.declared.Kind.{Kind};

    ghost KIND: { Kind };

    const KIND: Kind;
}

#[derive(Clone, Copy, PartialEq, Eq, Debug)]
pub struct PauliLetters;

#[derive(Clone, Copy, PartialEq, Eq, Debug)]
pub struct DecoherenceLetters;

impl Alphabet for PauliLetters {
    ghost use Rattle.letters.specs.declared.Kind.TheVariants.{Pauli};

    ghost KIND = { Pauli };

    const KIND: Kind = Kind::Pauli;
}

impl Alphabet for DecoherenceLetters {
    ghost use Rattle.letters.specs.declared.Kind.TheVariants.{Decoherence};

    ghost KIND = { Decoherence };

    const KIND: Kind = Kind::Decoherence;
}
