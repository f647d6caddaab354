// The letters of a record as two masks of bits in one number.
ghost use Rattle.std.specs.Prelude.{◌≡◌, ◌*◌, ◌%◌, ◌^◌};
ghost use Rattle.items.specs.Masks.{letter_bits, masks_of};

use crate::{CAPACITY, Items, Site};

// The bits of a letter at its site: X turns its bit over, Z gives it a sign, Y does both.
pub(crate) fn bits_at(site: Site, letter: u8) -> u64
    ensures { result ≡ letter_bits (letter % 4) * 2 ^ (site % 32) }
{
    let l = u64::from(letter % 4);
    let turn = (l + l / 2) % 2;
    (turn + MASK_SIZE * (l / 2)) << u32::from(site % 32)
}

// One more than the largest mask: sites count below 32.
pub const MASK_SIZE: u64 = 4294967296;

impl Items {
    // The letters as two masks: in the low half the bits that they turn over, in the high half those that give a sign. Number 0 isn't judged.
    pub fn masks(&self) -> u64
        ensures { result ≡ masks_of self.now }
    {
        let mut x: u64 = 0;
        for i in 0..self.count.min(CAPACITY) {
            x = x ^ bits_at(self.sites[i], self.letters[i]);
        }
        x
    }
}
