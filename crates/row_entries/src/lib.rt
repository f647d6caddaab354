// The entries of a row that are not zero, found from masks: columns and powers of i, of a product's matrix and of a superoperator.
#![tactic(auto)]

ghost use Rattle.std.specs.Prelude.{◌≡◌, [], ◌∷◌, ◌^◌, min, ℕ, ◌*◌, ◌+◌, ◌%◌, ◌<◌};
ghost use Rattle.std.specs.Int.Count.{ones};
ghost use Rattle.std.specs.Int.Bits.{bit_and};
ghost use Rattle.row_entries.specs.Answers.{most_spins, said_row, row_answer};
ghost use Rattle.letters.specs.Matrices.{letters_of};
ghost use Rattle.row_entries.specs.MaskEntries.{power_of_Y, entry_from_masks};
ghost use Rattle.row_entries.specs.Entries.{operator_entry, commutator_entries, noise_entries};

use items::Items;
use items::masks::MASK_SIZE;
use letters::Kind;
use refusal::Refusal;

// The most spins that a row takes.
pub const MOST_SPINS: u32 = 31;

// The count of the rows of a matrix over `spins` spins. More spins than a row takes count as the most.
pub fn size_of(spins: u32) -> u64
    ensures { result ≡ 2 ^ min spins most_spins }
{
    1u64 << spins.min(MOST_SPINS)
}

// A column and a power of i.
#[derive(Clone, Copy, PartialEq, Eq, Debug)]
pub struct Entry {
    pub column: u64,
    pub power: u8,
}

// The power of i that stands in row 0 of Y.
#[tactic(auto, using(crate::proofs::MaskEntryLaws::power_of_y_pauli, crate::proofs::MaskEntryLaws::power_of_y_decoherence), unfolding(letters::specs::Matrices::letters_of))]
fn power_of_y(kind: Kind) -> u32
    ensures { result ≡ power_of_Y (letters_of kind) }
{
    match kind {
        Kind::Pauli => 3,
        Kind::Decoherence => 0,
    }
}

// The column and the power of i of the entry of `row` that is not zero, of the product with these masks. Number 0 isn't judged.
#[tactic(auto, using(crate::proofs::MaskEntryLaws::ys_few, crate::proofs::MaskEntryLaws::signs_few), unfolding(crate::specs::MaskEntries::entry_from_masks, items::specs::Masks::flip_of, items::specs::Masks::sign_of))]
fn entry_from_masks(kind: Kind, masks: u64, row: u64) -> Entry
    ensures { ◌≡◌ {A = ℕ × ℕ} (result.column, result.power) (entry_from_masks (letters_of kind) masks row) }
{
    let flip = masks % MASK_SIZE;
    let sign = masks / MASK_SIZE;
    let each_y = power_of_y(kind);
    let power = each_y * (flip & sign).count_ones() + 2 * (row & sign).count_ones();
    Entry {
        column: row ^ flip,
        power: (power % 4) as u8,
    }
}

// The column and the power of i of the entry of `row` that is not zero, over `spins` spins.
#[tactic(auto, using(crate::proofs::MaskEntryLaws::from_masks_inside), unfolding(crate::specs::Answers::row_answer))]
pub fn row(kind: Kind, p: &Items, spins: u32, row: u64) -> Result<Entry, Refusal>
    ensures { said_row result ≡ row_answer (letters_of kind) p.now spins row }
{
    if !p.is_valid() {
        return Err(Refusal::Malformed);
    }
    if MOST_SPINS < spins {
        return Err(Refusal::TooManySpins);
    }
    if size_of(spins) <= row {
        return Err(Refusal::RowOutOfRange);
    }
    let reach = p.reach();
    if (spins as usize) < reach {
        return Err(Refusal::SiteOutsideSpins(reach - 1));
    }
    Ok(entry_from_masks(kind, p.masks(), row))
}

// What a term of a Hamiltonian contributes: its left half and its right half.
#[derive(Clone, Copy, PartialEq, Eq, Debug)]
pub struct CommutatorEntries {
    pub left: Entry,
    pub right: Entry,
}

// What a pair of noise contributes: L on the left with R on the right, and R† L on the left half and on the right.
#[derive(Clone, Copy, PartialEq, Eq, Debug)]
pub struct NoiseEntries {
    pub jump: Entry,
    pub left: Entry,
    pub right: Entry,
}

// The count of the rows of a superoperator over `spins` spins.
pub fn superoperator_size(spins: u32) -> u64
    ensures { result ≡ 2 ^ min spins most_spins * 2 ^ min spins most_spins }
{
    let size = size_of(spins);
    size * size
}

// The entry at the column (a, b) with the power `power` of i.
fn paired(size: u64, a: u64, b: u64, power: u8) -> Entry
    requires { a * size + b < 2 ^ 64 }
    ensures { ◌≡◌ {A = ℕ × ℕ} (result.column, result.power) (a * size + b, power % 4) }
{
    Entry {
        column: a * size + b,
        power: power % 4,
    }
}

// The entry of the row of the product with these masks. Number 0 isn't judged again: the sets that products come from have been.
#[tactic(auto, unfolding(crate::specs::Entries::operator_entry))]
pub fn operator_entry(kind: Kind, masks: u64, spins: u32, row: u64) -> Entry
    ensures { ◌≡◌ {A = ℕ × ℕ} (result.column, result.power) (operator_entry (letters_of kind) masks (min spins most_spins) row) }
{
    let entry = entry_from_masks(kind, masks, row);
    let column = entry.column % size_of(spins);
    Entry {
        column,
        power: entry.power,
    }
}

// The power of i of one sign for each bit of `x`.
fn sign_power(x: u64) -> u8
    ensures { result ≡ 2 * (ones x % 2) }
{
    2 * ((x.count_ones() % 2) as u8)
}

// The power of i of the letters Y of a Pauli product with these masks: 3 for each.
fn y_power(flip: u64, sign: u64) -> u8
    ensures { result ≡ 3 * (ones (bit_and flip sign) % 4) }
{
    3 * (((flip & sign).count_ones() % 4) as u8)
}

// The entries of the Pauli product with these masks in a commutator's row (k, l). Row l has its entry in column b.
#[tactic(auto, using(crate::proofs::EntryLaws::row_fits, crate::proofs::EntryLaws::commutator_by_masks), unfolding(items::specs::Masks::flip_of, items::specs::Masks::sign_of))]
pub fn commutator_entries(masks: u64, spins: u32, row: u64) -> CommutatorEntries
    ensures { ((result.left.column, result.left.power) ∷ (result.right.column, result.right.power) ∷ []) ≡ commutator_entries masks (min spins most_spins) row }
{
    let size = size_of(spins);
    let k = row / size;
    let l = row % size;
    let flip = masks % MASK_SIZE;
    let sign = masks / MASK_SIZE;
    let b = (l ^ flip) % size;
    let ys = y_power(flip, sign);
    let left = paired(size, (k ^ flip) % size, l, 3 + ys + sign_power(k & sign));
    let right = paired(size, k, b, 1 + ys + sign_power(b & sign));
    CommutatorEntries { left, right }
}

// The entries of the pair of decoherence products with the masks `left` and `right` in a noise row (k, l). Row k of R has its entry in column m,
// and row l of L in column w. All powers are even: iY has none of its own, so that only the parity of the signs counts.
#[tactic(auto, using(crate::proofs::EntryLaws::row_fits, crate::proofs::EntryLaws::noise_by_masks), unfolding(items::specs::Masks::flip_of, items::specs::Masks::sign_of))]
pub fn noise_entries(left: u64, right: u64, spins: u32, row: u64) -> NoiseEntries
    ensures { ((result.jump.column, result.jump.power) ∷ (result.left.column, result.left.power) ∷ (result.right.column, result.right.power) ∷ []) ≡ noise_entries left right (min spins most_spins) row }
{
    let size = size_of(spins);
    let k = row / size;
    let l = row % size;
    let left_flip = left % MASK_SIZE;
    let left_sign = left / MASK_SIZE;
    let right_flip = right % MASK_SIZE;
    let right_sign = right / MASK_SIZE;
    let m = (k ^ right_flip) % size;
    let w = (l ^ left_flip) % size;
    let signs = left_sign ^ right_sign;
    let jump = paired(
        size,
        (k ^ left_flip) % size,
        (l ^ right_flip) % size,
        sign_power((k & left_sign) ^ (l & right_sign)),
    );
    let on_left = paired(size, (m ^ left_flip) % size, l, sign_power(m & signs));
    let on_right = paired(size, k, (w ^ right_flip) % size, sign_power(w & signs));
    NoiseEntries {
        jump,
        left: on_left,
        right: on_right,
    }
}
