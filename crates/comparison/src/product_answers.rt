// Records on products, opcodes 0 to 16: seven calls on products of either kind, conversions and the row.
use crate::answers::is_power;
use crate::fault::Fault;
use crate::forms::{Form, Place, Sign};
use crate::reader::Reader;
use crate::row_answers::Row;
use spins::{
    Alphabet, Complex, DecoherenceLetters, DecoherenceProduct, Items, PauliLetters, PauliProduct,
    Product, Refusal, SITE_COUNT, Site, WithPower,
};

// A product.
fn product_told<K: Alphabet>(
    reader: &mut Reader<'_>,
    ours: Result<Product<K>, Refusal>,
) -> Result<bool, Fault> {
    let told: Items = reader.read()?;
    reader.end()?;
    Ok(ours?.items == told)
}

// A product and its power of i, beside the Rust's product and number.
fn power_told<K: Alphabet, F: Form + Into<Complex>>(
    reader: &mut Reader<'_>,
    ours: Result<WithPower<K>, Refusal>,
) -> Result<bool, Fault> {
    let (told, factor): (Items, F) = reader.read()?;
    reader.end()?;
    let ours = ours?;
    Ok(ours.product.items == told && is_power(ours.power, factor))
}

fn set<K: Alphabet>(reader: &mut Reader<'_>) -> Result<bool, Fault> {
    let product: Product<K> = reader.read()?;
    let (site, letter) = reader.read()?;
    product_told(reader, product.set_pauli(site, letter))
}

// The letter on a site, 0 where it is free.
fn get<K: Alphabet>(reader: &mut Reader<'_>) -> Result<bool, Fault> {
    let (product, site): (Product<K>, Site) = reader.read()?;
    let told: u8 = reader.read()?;
    reader.end()?;
    Ok(product.get(site)?.unwrap_or(0) == told)
}

fn multiply<K: Alphabet>(reader: &mut Reader<'_>) -> Result<bool, Fault> {
    let (left, right): (Product<K>, Product<K>) = reader.read()?;
    power_told::<K, Complex>(reader, left.multiply(right))
}

// A product, or the site at which the Rust refused it with 3.
impl Form for Result<Items, Refusal> {
    fn read(reader: &mut Reader<'_>) -> Result<Self, Fault> {
        let tag: u8 = reader.read()?;
        match tag {
            0 => Ok(Ok(reader.read()?)),
            3 => {
                let site: Site = reader.read()?;
                Ok(Err(Refusal::SiteOccupied(usize::from(site))))
            }
            _ => Err(Fault::Unparsed),
        }
    }
}

fn concatenate<K: Alphabet>(reader: &mut Reader<'_>) -> Result<bool, Fault> {
    let (left, right): (Product<K>, Product<K>) = reader.read()?;
    let told: Result<Items, Refusal> = reader.read()?;
    reader.end()?;
    let ours = left.concatenate(right);
    match told {
        Ok(items) => Ok(ours?.items == items),
        Err(why) => Ok(ours.err() == Some(why)),
    }
}

// -1, 0 or 1.
fn cmp<K: Alphabet>(reader: &mut Reader<'_>) -> Result<bool, Fault> {
    let (left, right): (Product<K>, Product<K>) = reader.read()?;
    let told: i8 = reader.read()?;
    reader.end()?;
    Ok(left.cmp(right)? as i8 == told)
}

fn conjugate<K: Alphabet>(reader: &mut Reader<'_>) -> Result<bool, Fault> {
    let product: Product<K> = reader.read()?;
    power_told::<K, Sign>(reader, product.hermitian_conjugate())
}

fn remap<K: Alphabet>(reader: &mut Reader<'_>) -> Result<bool, Fault> {
    let (product, targets): (Product<K>, [Site; SITE_COUNT]) = reader.read()?;
    product_told(reader, product.remap_qubits(targets))
}

fn to_pauli(reader: &mut Reader<'_>) -> Result<bool, Fault> {
    let product: DecoherenceProduct = reader.read()?;
    power_told::<PauliLetters, Complex>(reader, product.decoherence_to_spin())
}

fn to_decoherence(reader: &mut Reader<'_>) -> Result<bool, Fault> {
    let product: PauliProduct = reader.read()?;
    let ours = DecoherenceProduct::spin_to_decoherence(product);
    power_told::<DecoherenceLetters, Complex>(reader, ours)
}

// The row of a decoherence product, which has one entry.
fn row(reader: &mut Reader<'_>) -> Result<bool, Fault> {
    let (product, place): (DecoherenceProduct, Place) = reader.read()?;
    let told: Row = reader.read()?;
    reader.end()?;
    Ok(told.is_one(product.sparse_matrix_entries_on_row(place.spins, place.row)?))
}

// One of the seven calls that both kinds have.
fn called<K: Alphabet>(call: u8, reader: &mut Reader<'_>) -> Result<bool, Fault> {
    match call {
        0 => set::<K>(reader),
        1 => get::<K>(reader),
        2 => multiply::<K>(reader),
        3 => concatenate::<K>(reader),
        4 => cmp::<K>(reader),
        5 => conjugate::<K>(reader),
        _ => remap::<K>(reader),
    }
}

pub(crate) fn compared(op: u8, reader: &mut Reader<'_>) -> Result<bool, Fault> {
    match op {
        0..=6 => called::<PauliLetters>(op, reader),
        7..=13 => called::<DecoherenceLetters>(op - 7, reader),
        14 => to_pauli(reader),
        15 => to_decoherence(reader),
        16 => row(reader),
        _ => Err(Fault::Unparsed),
    }
}
