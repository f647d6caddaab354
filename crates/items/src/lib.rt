// The record of a product: a count with two flat arrays, sites ascending, zeros past the count.
#![tactic(auto)]

ghost use Rattle.std.specs.Prelude.{◌≡◌, ◌&&◌, true, false, ◌≤◌, leb, MatchResult};
ghost use Rattle.items.specs.Record.{empty_product, highest_site, capacity, place_valid, valid, same_items, reach};
ghost use Rattle.letters.specs.Answers.{highest_letter};
ghost use Rattle.letters.specs.Tests.{every};
ghost use Rattle.items.specs.Verdicts.{judged};
ghost use Rattle.refusal.specs.declared.Refusal.TheVariants.{Malformed};

pub mod masks;
pub mod valid;

use crate::masks::bits_at;
use crate::valid::ValidItems;
use letters::HIGHEST_LETTER;
use refusal::Refusal;

// The number of a spin.
pub type Site = u8;

// The highest site, and how many sites there are.
pub const HIGHEST_SITE: Site = 30;

pub const SITE_COUNT: usize = HIGHEST_SITE as usize + 1;

// The sites that a product can occupy at once.
pub const CAPACITY: usize = 31;

#[derive(Clone, Copy, PartialEq, Eq, Debug)]
pub struct Items {
    pub count: usize,
    pub sites: [Site; CAPACITY],
    pub letters: [u8; CAPACITY],
}

// A product times i to a power.
#[derive(Clone, Copy, PartialEq, Eq, Debug)]
pub struct ScaledItems {
    pub power: u8,
    pub items: Items,
}

// Whether a site and its letter may stand at the next place, where `low` is the lowest site allowed.
fn fits_next(low: Site, site: Site, letter: u8) -> bool
    ensures { result ≡ (leb site highest_site && leb 1 letter && leb letter highest_letter && leb low site) }
{
    site <= HIGHEST_SITE && 1 <= letter && letter <= HIGHEST_LETTER && low <= site
}

impl Items {
    // The empty product.
    pub fn new() -> Items
        ensures { result ≡ empty_product }
    {
        Items {
            count: 0,
            sites: [0; CAPACITY],
            letters: [0; CAPACITY],
        }
    }

    // Whether zeros stand past the count, of a record that is valid below it. No way out of the loop before its end: it is quicker so.
    fn has_zeros_past(&self) -> bool
        requires { (self.now.count ≤ capacity) × (every self.now.count (place_valid self.now.count self.now.sites self.now.letters) ≡ true) }
        ensures { result ≡ every capacity (place_valid self.now.count self.now.sites self.now.letters) }
    {
        let mut site_bits: u8 = 0;
        let mut letter_bits: u8 = 0;
        for i in self.count..CAPACITY {
            site_bits = site_bits | self.sites[i];
            letter_bits = letter_bits | self.letters[i];
        }
        (site_bits | letter_bits) == 0
    }

    // The masks of a record that number 0 lets pass, in one pass over its places.
    pub fn judged(&self) -> Option<u64>
        ensures { result ≡ judged self.now }
    {
        if CAPACITY < self.count {
            return None;
        }
        let mut low: Site = 0;
        let mut masks: u64 = 0;
        for i in 0..self.count {
            let site = self.sites[i];
            let letter = self.letters[i];
            if !fits_next(low, site, letter) {
                return None;
            }
            masks = masks ^ bits_at(site, letter);
            low = site + 1;
        }
        if self.has_zeros_past() {
            return Some(masks);
        }
        None
    }

    // Whether number 0 lets the record pass.
    pub fn is_valid(&self) -> bool
        ensures { result ≡ valid self.now }
    {
        self.judged().is_some()
    }

    // The record as one that number 0 lets pass.
    pub fn checked(&self) -> Result<ValidItems, Refusal>
        ensures { MatchResult result (λ p. p.items ≡ self.now) (λ why. (why ≡ Malformed) × (valid self.now ≡ false)) }
    {
        if self.is_valid() {
            return Ok(ValidItems { items: *self });
        }
        Err(Refusal::Malformed)
    }

    // Whether the record is that of the empty product.
    pub fn is_empty(&self) -> bool
        ensures { result ≡ same_items self.now empty_product }
    {
        self.count == 0 && self.has_zeros_past()
    }

    // One more than the highest occupied site. A count past the arrays reads as site 0, as `reach` has it.
    pub fn reach(&self) -> usize
        ensures { result ≡ reach self.now }
    {
        if self.count == 0 {
            return 0;
        }
        if CAPACITY < self.count {
            return 1;
        }
        usize::from(self.sites[self.count - 1]) + 1
    }
}
