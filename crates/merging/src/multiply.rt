// The product of two products of one kind, and two products joined into one.
ghost use Rattle.std.specs.Prelude.{◌≡◌, ◌<◌, MatchOption};
ghost use Rattle.letters.specs.Matrices.{letters_of};
ghost use Rattle.items.specs.Answers.{told_power, told};
ghost use Rattle.merging.specs.ProductAnswers.{multiply_answer, first_occupied, concatenate_answer};
ghost use Rattle.items.specs.Lists.{at};

use crate::merge::merged;
use crate::site::letter_at;
use items::valid::ValidItems;
use items::{Items, ScaledItems, Site};
use letters::Kind;
use refusal::Refusal;

#[tactic(auto, unfolding(crate::specs::ProductAnswers::multiply_answer))]
pub fn multiply(kind: Kind, p: &Items, q: &Items) -> Result<ScaledItems, Refusal>
    ensures { told_power p.now result ≡ multiply_answer (letters_of kind) p.now q.now }
{
    let p = p.checked()?;
    let q = q.checked()?;
    Ok(merged(kind, &p, &q))
}

// The first site of q that p occupies.
fn first_occupied(p: &ValidItems, q: &ValidItems) -> Option<Site>
    ensures { MatchOption result (first_occupied p.now.items q.now.items ≡ q.now.items.count) (λ s. (first_occupied p.now.items q.now.items < q.now.items.count) × (s ≡ at q.now.items.sites (first_occupied p.now.items q.now.items))) }
{
    q.items
        .sites
        .iter()
        .take(q.items.count)
        .copied()
        .find(|&site| letter_at(p, site).is_some())
}

// Both products in one. No site is in both, so the letters are those of the product in either order.
#[tactic(auto, unfolding(crate::specs::ProductAnswers::concatenate_answer))]
pub fn concatenate(p: &Items, q: &Items) -> Result<Items, Refusal>
    ensures { told p.now result ≡ concatenate_answer p.now q.now }
{
    let p = p.checked()?;
    let q = q.checked()?;
    if let Some(site) = first_occupied(&p, &q) {
        return Err(Refusal::SiteOccupied(usize::from(site)));
    }
    Ok(merged(Kind::Pauli, &p, &q).items)
}
