// The forms of a record: numbers, products, targets and places of rows.
use crate::fault::Fault;
use crate::reader::Reader;
use spins::{Alphabet, CAPACITY, Complex, Items, Product};

pub(crate) trait Form: Drop + Sized {
    fn read(reader: &mut Reader<'_>) -> Result<Self, Fault>;
}

// One after the other.
impl<A: Form, B: Form> Form for (A, B) {
    fn read(reader: &mut Reader<'_>) -> Result<Self, Fault> {
        let first = reader.read()?;
        let second = reader.read()?;
        Ok((first, second))
    }
}

// A count, then so many.
impl<T: Form> Form for Vec<T> {
    fn read(reader: &mut Reader<'_>) -> Result<Self, Fault> {
        let count: u8 = reader.read()?;
        reader.list(usize::from(count))
    }
}

impl<const N: usize> Form for [u8; N] {
    fn read(reader: &mut Reader<'_>) -> Result<Self, Fault> {
        reader.bytes()
    }
}

// The low byte first, as in all whole numbers.
impl Form for u8 {
    fn read(reader: &mut Reader<'_>) -> Result<Self, Fault> {
        Ok(u8::from_le_bytes(reader.bytes()?))
    }
}

impl Form for i8 {
    fn read(reader: &mut Reader<'_>) -> Result<Self, Fault> {
        Ok(i8::from_le_bytes(reader.bytes()?))
    }
}

impl Form for u16 {
    fn read(reader: &mut Reader<'_>) -> Result<Self, Fault> {
        Ok(u16::from_le_bytes(reader.bytes()?))
    }
}

impl Form for u64 {
    fn read(reader: &mut Reader<'_>) -> Result<Self, Fault> {
        Ok(u64::from_le_bytes(reader.bytes()?))
    }
}

// The bits of an f64 are its sign, then its size, in which infinity comes last before the NaNs.
const SIGN: u64 = 0x8000_0000_0000_0000;

const INFINITY: u64 = 0x7ff0_0000_0000_0000;

// By its bits; a NaN does not parse.
impl Form for f64 {
    #[tactic(auto, using(std::proofs::lemmas::Float::not_nan_f64_bits))]
    fn read(reader: &mut Reader<'_>) -> Result<Self, Fault> {
        let bits: u64 = reader.read()?;
        if INFINITY < bits % SIGN {
            return Err(Fault::Unparsed);
        }
        Ok(f64::from_bits(bits))
    }
}

// The real part first.
impl Form for Complex {
    fn read(reader: &mut Reader<'_>) -> Result<Self, Fault> {
        let re = reader.read()?;
        let im = reader.read()?;
        Ok(Complex { re, im })
    }
}

// A number whose second part is zero.
#[derive(Clone, Copy)]
pub(crate) struct Real(pub f64);

impl Form for Real {
    fn read(reader: &mut Reader<'_>) -> Result<Self, Fault> {
        let z: Complex = reader.read()?;
        if z.im == 0.0 {
            Ok(Real(z.re))
        } else {
            Err(Fault::Unparsed)
        }
    }
}

// A sign x, which is the number x + 0i.
#[derive(Clone, Copy)]
pub(crate) struct Sign(f64);

impl Form for Sign {
    fn read(reader: &mut Reader<'_>) -> Result<Self, Fault> {
        Ok(Sign(reader.read()?))
    }
}

impl From<Sign> for Complex {
    fn from(sign: Sign) -> Complex {
        Complex {
            re: sign.0,
            im: 0.0,
        }
    }
}

// A count of at most 31 letters on ascending sites.
impl Form for Items {
    fn read(reader: &mut Reader<'_>) -> Result<Self, Fault> {
        let count: u8 = reader.read()?;
        let mut items = Items::new();
        items.count = usize::from(count);
        if CAPACITY < items.count {
            return Err(Fault::Unparsed);
        }
        for i in 0..items.count {
            items.sites[i] = reader.read()?;
            items.letters[i] = reader.read()?;
        }
        if items.is_valid() {
            Ok(items)
        } else {
            Err(Fault::Unparsed)
        }
    }
}

impl<K: Alphabet> Form for Product<K> {
    fn read(reader: &mut Reader<'_>) -> Result<Self, Fault> {
        let items: Items = reader.read()?;
        Ok(Product::from(items))
    }
}

// A count of spins and a row.
#[derive(Clone, Copy)]
pub(crate) struct Place {
    pub spins: u32,
    pub row: u64,
}

impl Form for Place {
    fn read(reader: &mut Reader<'_>) -> Result<Self, Fault> {
        let spins: u8 = reader.read()?;
        let row = reader.read()?;
        Ok(Place {
            spins: u32::from(spins),
            row,
        })
    }
}
