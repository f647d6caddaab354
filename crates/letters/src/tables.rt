// The single-site tables.
ghost use Rattle.std.specs.Prelude.{◌≡◌, ◌<◌};
ghost use Rattle.letters.specs.Matrices.{letters_of, pauli, decoherence};
ghost use Rattle.letters.specs.Single.{times, letter_of, power_of, conjugated, converted};
ghost use Rattle.letters.specs.Answers.{other};

use crate::{Kind, Scaled};

fn scaled(letter: u8, power: u8) -> Scaled
    ensures { result ≡ record { letter = letter; power = power } }
{
    Scaled { letter, power }
}

// The product of two Pauli letters: a match on 4 times the left code plus the right code.
fn pauli_product(left: u8, right: u8) -> Scaled
    requires { (left < 4) × (right < 4) }
    ensures { (result.letter ≡ letter_of (times pauli left right)) × (result.power ≡ power_of (times pauli left right)) }
{
    match 4 * left + right {
        0..=3 => scaled(right, 0),
        4 | 8 | 12 => scaled(left, 0),
        5 | 10 | 15 => scaled(0, 0),
        6 => scaled(3, 1),
        7 => scaled(2, 3),
        9 => scaled(3, 3),
        11 => scaled(1, 1),
        13 => scaled(2, 1),
        _ => scaled(1, 3),
    }
}

// The product of two decoherence letters.
fn decoherence_product(left: u8, right: u8) -> Scaled
    requires { (left < 4) × (right < 4) }
    ensures { (result.letter ≡ letter_of (times decoherence left right)) × (result.power ≡ power_of (times decoherence left right)) }
{
    match 4 * left + right {
        0..=3 => scaled(right, 0),
        4 | 8 | 12 => scaled(left, 0),
        5 | 15 => scaled(0, 0),
        6 => scaled(3, 2),
        7 => scaled(2, 2),
        9 => scaled(3, 0),
        10 => scaled(0, 2),
        11 => scaled(1, 2),
        13 => scaled(2, 0),
        _ => scaled(1, 0),
    }
}

// The product of two letters of one kind.
pub(crate) fn product(kind: Kind, left: u8, right: u8) -> Scaled
    requires { (left < 4) × (right < 4) }
    ensures { (result.letter ≡ letter_of (times (letters_of kind) left right)) × (result.power ≡ power_of (times (letters_of kind) left right)) }
{
    match kind {
        Kind::Pauli => pauli_product(left, right),
        Kind::Decoherence => decoherence_product(left, right),
    }
}

// The power of i that conjugation gives: iY is its own transpose with the other sign.
#[tactic(auto, using(crate::proofs::Codes::conjugated_plain, crate::proofs::Codes::conjugated_pauli))]
pub(crate) fn conjugate_power(kind: Kind, letter: u8) -> u8
    requires { letter < 4 }
    ensures { (letter ≡ letter_of (conjugated (letters_of kind) letter)) × (result ≡ power_of (conjugated (letters_of kind) letter)) }
{
    match (kind, letter) {
        (Kind::Decoherence, 2) => 2,
        _ => 0,
    }
}

// The power of i that conversion gives: Y is -i times iY, and iY is i times Y.
#[tactic(auto, using(crate::proofs::Codes::converted_plain))]
pub(crate) fn convert_power(kind: Kind, letter: u8) -> u8
    requires { letter < 4 }
    ensures { (letter ≡ letter_of (converted (letters_of kind) (letters_of (other kind)) letter)) × (result ≡ power_of (converted (letters_of kind) (letters_of (other kind)) letter)) }
{
    match (kind, letter) {
        (Kind::Pauli, 2) => 3,
        (Kind::Decoherence, 2) => 1,
        _ => 0,
    }
}
