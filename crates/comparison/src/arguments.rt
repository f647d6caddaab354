// Sets among the arguments.
use crate::fault::Fault;
use crate::forms::Form;
use crate::reader::Reader;
use crate::sets::Set;
use spins::{Complex, MOST_TERMS, PauliOperator, Refusal};
use std::marker::PhantomData;

pub(crate) trait Argument: Form {
    type Of: Set;

    fn build(&self) -> Result<Self::Of, Refusal>;
}

// At most 64 terms.
#[derive(Drop)]
pub(crate) struct Terms<K, V> {
    pub list: Vec<(K, V)>,
}

impl<K: Form, V: Form> Form for Terms<K, V> {
    fn read(reader: &mut Reader<'_>) -> Result<Self, Fault> {
        let list: Vec<(K, V)> = reader.read()?;
        if MOST_TERMS < list.len() {
            return Err(Fault::Unparsed);
        }
        Ok(Terms { list })
    }
}

// The terms that a call on a set gives.
pub(crate) type Told<S> = Terms<<S as Set>::Key, Complex>;

// A set by its terms, built by `set` in the order written.
#[derive(Drop)]
pub(crate) struct Written<S: Set> {
    terms: Terms<S::Key, S::Value>,
}

impl<S: Set> Form for Written<S> {
    fn read(reader: &mut Reader<'_>) -> Result<Self, Fault> {
        Ok(Written {
            terms: reader.read()?,
        })
    }
}

impl<S: Set> Argument for Written<S> {
    type Of = S;

    fn build(&self) -> Result<S, Refusal> {
        let mut set = S::new();
        for (key, value) in &self.terms.list {
            set.set(*key, *value)?;
        }
        Ok(set)
    }
}

// A set without terms, for which a record has no bytes.
#[derive(Drop)]
pub(crate) struct Empty<S> {
    of: PhantomData<S>,
}

impl<S: Set> Form for Empty<S> {
    fn read(_reader: &mut Reader<'_>) -> Result<Self, Fault> {
        Ok(Empty { of: PhantomData })
    }
}

impl<S: Set> Argument for Empty<S> {
    type Of = S;

    fn build(&self) -> Result<S, Refusal> {
        Ok(S::new())
    }
}

// A Pauli operator, then the number that it is multiplied by.
#[derive(Drop)]
pub(crate) struct Scaled {
    operator: Written<PauliOperator>,
    factor: Complex,
}

impl Form for Scaled {
    fn read(reader: &mut Reader<'_>) -> Result<Self, Fault> {
        let operator = reader.read()?;
        let factor = reader.read()?;
        Ok(Scaled { operator, factor })
    }
}

impl Argument for Scaled {
    type Of = PauliOperator;

    fn build(&self) -> Result<PauliOperator, Refusal> {
        self.operator.build()?.scale(self.factor)
    }
}
