// What the terms of a set are found by: a product, or a pair of products.
ghost use Rattle.std.specs.Prelude.{◌≡◌};
ghost use Rattle.term_sets.specs.Keys.{empty_side};

use crate::masks::Masks;
use items::Items;
use refusal::Refusal;

pub trait Key: Copy {
    ghost use Rattle.std.specs.Prelude.{◌≡◌, cond, Some, None};
    ghost use Rattle.refusal.specs.Refusals.{said_done};
    ghost use Rattle.term_sets.specs.Keys.{Keys, KeyLaws};

    ghost keys: { Keys Self };

    // Whether two keys are the same.
    fn is_same(&self, other: &Self) -> bool
        ensures { result ≡ keys.same self.now other.now };

    // The key of what stands past a set's count.
    fn blank() -> Self
        ensures { result ≡ keys.blank };

    // Whether it is that key. An `impl` need not write it; it may where it has a shorter way.
    fn is_blank(&self) -> bool
        ensures { result ≡ keys.same self.now keys.blank }
    {
        self.is_same(&Self::blank())
    }

    // What an entry says of a key that it is given: 0, then 4.
    fn check(&self) -> Result<(), Refusal>
        ensures { said_done result ≡ keys.said_of self.now };

    // A number that the same keys share.
    fn number(&self) -> u64
        ensures { result ≡ keys.number_of self.now };

    // Of a key that a held term may have, masks that tell it from other ones.
    fn judged(&self) -> Option<Masks>
        ensures { result ≡ cond (keys.good self.now) (Some (keys.masks_of self.now)) None };

    ghost laws: { KeyLaws keys };
}

impl Key for Items {
    ghost use Rattle.term_sets.specs.Keys.{item_keys};
    ghost use Rattle.term_sets.specs.KeyInstances.{item_laws};

    ghost keys = { item_keys };

    ghost laws = { item_laws };

    fn is_same(&self, other: &Items) -> bool {
        *self == *other
    }

    fn blank() -> Items {
        Items::new()
    }

    fn is_blank(&self) -> bool {
        self.is_empty()
    }

    fn check(&self) -> Result<(), Refusal> {
        if self.is_valid() {
            return Ok(());
        }
        Err(Refusal::Malformed)
    }

    fn number(&self) -> u64 {
        self.masks()
    }

    fn judged(&self) -> Option<Masks> {
        let left = self.judged()?;
        Some(Masks { left, right: 0 })
    }
}

// Masks are taken below this number, so that the number of two fits.
const MASKS_TAKEN: u64 = 4611686018427387904;

// Whether a product of a pair has no sites.
pub fn has_empty_side(k: &(Items, Items)) -> bool
    ensures { result ≡ empty_side k.now }
{
    k.0.count == 0 || k.1.count == 0
}

impl Key for (Items, Items) {
    ghost use Rattle.term_sets.specs.Keys.{pair_keys};
    ghost use Rattle.term_sets.specs.KeyInstances.{pair_laws};

    ghost keys = { pair_keys };

    ghost laws = { pair_laws };

    fn is_same(&self, other: &(Items, Items)) -> bool {
        self.0 == other.0 && self.1 == other.1
    }

    fn blank() -> (Items, Items) {
        (Items::new(), Items::new())
    }

    fn is_blank(&self) -> bool {
        self.0.is_empty() && self.1.is_empty()
    }

    fn check(&self) -> Result<(), Refusal> {
        if !self.0.is_valid() || !self.1.is_valid() {
            return Err(Refusal::Malformed);
        }
        if has_empty_side(self) {
            return Err(Refusal::EmptySide);
        }
        Ok(())
    }

    fn number(&self) -> u64 {
        self.0.masks() % MASKS_TAKEN + 3 * (self.1.masks() % MASKS_TAKEN)
    }

    fn judged(&self) -> Option<Masks> {
        let left = self.0.judged()?;
        let right = self.1.judged()?;
        if has_empty_side(self) {
            return None;
        }
        Some(Masks { left, right })
    }
}
