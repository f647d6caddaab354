// Products of letters on sites: the common record `Items`, with its kind of letters as a type.
#![tactic(auto)]

ghost use Rattle.std.specs.Prelude.{◌≡◌};
ghost use Rattle.letters.specs.Matrices.{letters_of, pauli, decoherence};
ghost use Rattle.items.specs.Lists.{at};
ghost use Rattle.items.specs.Record.{empty_product};
ghost use Rattle.merging.specs.SiteAnswers.{said_got, get_answer, set_answer};
ghost use Rattle.merging.specs.ProductAnswers.{multiply_answer, concatenate_answer};
ghost use Rattle.remapping.specs.Targets.{remap_answer};
ghost use Rattle.phases.specs.Answers.{conjugate_answer, convert_answer};
ghost use Rattle.row_entries.specs.Answers.{row_answer};
ghost use Rattle.ordering.specs.Orders.{said_order, compare_answer};
ghost use Rattle.products.specs.Kinds.{told_product, told_power, said_product_row, as_complex};

use complex::Complex;
use items::{Items, SITE_COUNT, ScaledItems, Site};
use letters::Kind;
use letters::alphabet::{Alphabet, DecoherenceLetters, PauliLetters};
use refusal::Refusal;
use std::cmp::Ordering;
use std::marker::PhantomData;

// A product of letters of one kind, 0 to 3 at each site: X, Y and Z are 1, 2 and 3.
#[derive(Clone, Copy)]
pub struct Product<K> {
    pub items: Items,
    letters: PhantomData<K>,
}

// A product of Pauli letters.
pub type PauliProduct = Product<PauliLetters>;

// A product of decoherence letters: identity, X, iY and Z.
pub type DecoherenceProduct = Product<DecoherenceLetters>;

// A product and the power of i in front of it.
#[derive(Clone, Copy)]
pub struct WithPower<K> {
    pub power: u8,
    pub product: Product<K>,
}

// The entry of a row that is not zero: its column and its factor.
#[derive(Clone, Copy)]
pub struct ProductEntry {
    pub column: u64,
    pub factor: Complex,
}

// Any record, in letters of the kind that the type says.
impl<K> From<Items> for Product<K> {
    ghost from_gives = { λ items p. p.items ≡ items };

    fn from(items: Items) -> Product<K> {
        Product {
            items,
            letters: PhantomData,
        }
    }
}

// A record with a power of i, as a product of a kind.
fn with_power<K>(scaled: ScaledItems) -> WithPower<K>
    ensures { (result.power ≡ scaled.power) × (result.product.items ≡ scaled.items) }
{
    WithPower {
        power: scaled.power,
        product: Product::from(scaled.items),
    }
}

impl<K: Alphabet> Product<K> {
    // The empty product.
    pub fn new() -> Self
        ensures { result.items ≡ empty_product }
    {
        Product::from(Items::new())
    }

    // The letter on a site, none on a free one.
    pub fn get(self, site: Site) -> Result<Option<u8>, Refusal>
        ensures { said_got result ≡ get_answer self.items site }
    {
        merging::site::get(&self.items, site)
    }

    // The product with a letter on a site; the identity frees it.
    pub fn set_pauli(self, site: Site, letter: u8) -> Result<Self, Refusal>
        ensures { told_product self.items result ≡ set_answer self.items site letter }
    {
        Ok(Product::from(merging::site::set_pauli(&self.items, site, letter)?))
    }

    // The matrix product of two products: a power of i and a product.
    pub fn multiply(self, right: Self) -> Result<WithPower<K>, Refusal>
        ensures { told_power self.items result ≡ multiply_answer (letters_of K.KIND) self.items right.items }
    {
        let scaled = merging::multiply::multiply(K::KIND, &self.items, &right.items)?;
        Ok(with_power(scaled))
    }

    // Two products on different sites, as one.
    pub fn concatenate(self, other: Self) -> Result<Self, Refusal>
        ensures { told_product self.items result ≡ concatenate_answer self.items other.items }
    {
        let items = merging::multiply::concatenate(&self.items, &other.items)?;
        Ok(Product::from(items))
    }

    // Each letter moves from its site s to targets[s].
    pub fn remap_qubits(self, targets: [Site; SITE_COUNT]) -> Result<Self, Refusal>
        ensures { told_product self.items result ≡ remap_answer (at targets) self.items }
    {
        Ok(Product::from(remapping::remap_qubits(&self.items, &targets)?))
    }

    // By number of occupied sites, and then, of Pauli products, by all sites and then by all letters; of decoherence products place by place by
    // site and letter.
    pub fn cmp(self, other: Self) -> Result<Ordering, Refusal>
        ensures { said_order result ≡ compare_answer K.KIND self.items other.items }
    {
        ordering::compare(K::KIND, &self.items, &other.items)
    }

    // The conjugate transpose: the product itself, with the power 2 for an odd number of iY.
    pub fn hermitian_conjugate(self) -> Result<WithPower<K>, Refusal>
        ensures { told_power self.items result ≡ conjugate_answer (letters_of K.KIND) self.items }
    {
        Ok(with_power(phases::conjugate(K::KIND, &self.items)?))
    }
}

impl Product<DecoherenceLetters> {
    // A decoherence product in Pauli letters.
    #[tactic(auto, unfolding(letters::specs::Matrices::letters_of))]
    pub fn decoherence_to_spin(self) -> Result<WithPower<PauliLetters>, Refusal>
        ensures { told_power empty_product result ≡ convert_answer decoherence pauli self.items }
    {
        Ok(with_power(phases::convert(Kind::Decoherence, &self.items)?))
    }

    // A Pauli product in decoherence letters.
    #[tactic(auto, unfolding(letters::specs::Matrices::letters_of))]
    pub fn spin_to_decoherence(
        product: PauliProduct,
    ) -> Result<WithPower<DecoherenceLetters>, Refusal>
        ensures { told_power empty_product result ≡ convert_answer pauli decoherence product.items }
    {
        Ok(with_power(phases::convert(Kind::Pauli, &product.items)?))
    }

    // The entry of a row over a number of spins that is not zero.
    #[tactic(auto, unfolding(letters::specs::Matrices::letters_of))]
    pub fn sparse_matrix_entries_on_row(self, spins: u32, row: u64) -> Result<ProductEntry, Refusal>
        ensures { said_product_row result ≡ as_complex (row_answer decoherence self.items spins row) }
    {
        let entry = row_entries::row(Kind::Decoherence, &self.items, spins, row)?;
        Ok(ProductEntry {
            column: entry.column,
            factor: complex::unit_of_i(entry.power),
        })
    }
}
