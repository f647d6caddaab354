// Conjugation and conversion of a product: the letters stay, and a power of i comes in front.
#![tactic(auto)]

ghost use Rattle.std.specs.Prelude.{◌≡◌, ℕ, ◌<◌, ◌%◌};
ghost use Rattle.letters.specs.Single.{power_of, conjugated, converted};
ghost use Rattle.letters.specs.Sums.{total};
ghost use Rattle.items.specs.Record.{letter_at, reach, empty_product};
ghost use Rattle.letters.specs.Matrices.{letters_of};
ghost use Rattle.items.specs.Answers.{told_power};
ghost use Rattle.phases.specs.Answers.{conjugate_answer, convert_answer};
ghost use Rattle.letters.specs.Answers.{other};

use items::valid::ValidItems;
use items::{Items, ScaledItems};
use letters::Kind;
use refusal::Refusal;

// The powers of i that a rule gives for the letters, added up: for each function `power` that says what the rule gives, and no power for the
// identity, which no place has.
fn total_power<F: Fn(u8) -> u8>(p: &ValidItems, power_of_letter: F) -> u8
    requires can { (l : ℕ) → l < 4 → F.pre power_of_letter l }
    requires small { (l r : ℕ) → l < 4 → F.post power_of_letter l r → r < 4 }
    ensures { (power : ℕ → ℕ) → power 0 ≡ 0 → ((l r : ℕ) → l < 4 → F.post power_of_letter l r → r ≡ power l) → result ≡ total (λ s. power (letter_at p.now.items s)) (reach p.now.items) % 4 }
{
    let mut sum: u8 = 0;
    for i in 0..p.items.count {
        sum = (sum + power_of_letter(p.items.letters[i])) % 4;
    }
    sum
}

// The conjugate transpose of a product.
#[tactic(auto, unfolding(crate::specs::Answers::conjugate_answer))]
pub fn conjugate(kind: Kind, p: &Items) -> Result<ScaledItems, Refusal>
    ensures { told_power p.now result ≡ conjugate_answer (letters_of kind) p.now }
{
    let valid = p.checked()?;
    let power = total_power(&valid, |letter| kind.conjugate(letter).unwrap().power);
    Ok(ScaledItems { power, items: *p })
}

// A product in letters of the other kind.
#[tactic(auto, unfolding(crate::specs::Answers::convert_answer))]
pub fn convert(kind: Kind, p: &Items) -> Result<ScaledItems, Refusal>
    ensures { told_power empty_product result ≡ convert_answer (letters_of kind) (letters_of (other kind)) p.now }
{
    let valid = p.checked()?;
    let power = total_power(&valid, |letter| kind.convert(letter).unwrap().power);
    Ok(ScaledItems { power, items: *p })
}
