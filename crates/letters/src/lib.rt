// The letters of one site: 0 identity, 1 X, 2 Y (iY in a decoherence product), 3 Z.
// A factor is a power of i, 0 to 3.
#![tactic(auto)]

ghost use Rattle.std.specs.Prelude.{◌≡◌};
ghost use Rattle.letters.specs.Matrices.{letters_of};
ghost use Rattle.letters.specs.Answers.{other, said_letter, multiply_letters, conjugate_letter, convert_letter};

pub mod alphabet;
mod tables;

use refusal::Refusal;

// The highest letter code.
pub const HIGHEST_LETTER: u8 = 3;

#[derive(Clone, Copy, PartialEq, Eq, Debug)]
pub enum Kind {
    Pauli,
    Decoherence,
}

// A letter times i to a power.
#[derive(Clone, Copy, PartialEq, Eq, Debug)]
pub struct Scaled {
    pub letter: u8,
    pub power: u8,
}

impl Kind {
    // The product of two letters of one kind.
    pub fn multiply(self, left: u8, right: u8) -> Result<Scaled, Refusal>
        ensures { said_letter result ≡ multiply_letters (letters_of self) left right }
    {
        if HIGHEST_LETTER < left || HIGHEST_LETTER < right {
            return Err(Refusal::UnknownLetter);
        }
        Ok(tables::product(self, left, right))
    }

    // The conjugate transpose of a letter.
    pub fn conjugate(self, letter: u8) -> Result<Scaled, Refusal>
        ensures { said_letter result ≡ conjugate_letter (letters_of self) letter }
    {
        if HIGHEST_LETTER < letter {
            return Err(Refusal::UnknownLetter);
        }
        let power = tables::conjugate_power(self, letter);
        Ok(Scaled { letter, power })
    }

    // A letter in the letters of the other kind.
    pub fn convert(self, letter: u8) -> Result<Scaled, Refusal>
        ensures { said_letter result ≡ convert_letter (letters_of self) (letters_of (other self)) letter }
    {
        if HIGHEST_LETTER < letter {
            return Err(Refusal::UnknownLetter);
        }
        let power = tables::convert_power(self, letter);
        Ok(Scaled { letter, power })
    }
}
