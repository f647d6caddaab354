// A record's bytes, read from the front.
use crate::fault::Fault;
use crate::forms::Form;
use std::alloc::Global;

#[derive(Drop)]
pub(crate) struct Reader<'a> {
    rest: &'a [u8],
    alloc: Global,
}

impl<'a> Reader<'a> {
    pub(crate) fn new(alloc: Global, bytes: &'a [u8]) -> Self {
        Reader { rest: bytes, alloc }
    }

    // The next bytes.
    pub(crate) fn bytes<const N: usize>(&mut self) -> Result<[u8; N], Fault> {
        let (first, rest) = self.rest.split_first_chunk().ok_or(Fault::Unparsed)?;
        self.rest = rest;
        Ok(*first)
    }

    // What is next, of a form.
    pub(crate) fn read<T: Form>(&mut self) -> Result<T, Fault> {
        T::read(self)
    }

    // So many of a form.
    pub(crate) fn list<T: Form>(&mut self, count: usize) -> Result<Vec<T>, Fault> {
        let alloc = self.alloc;
        (0..count).map(|_| self.read()).try_collect(alloc)
    }

    // Nothing stands past what was read.
    pub(crate) fn end(&self) -> Result<(), Fault> {
        if self.rest.is_empty() {
            Ok(())
        } else {
            Err(Fault::Unparsed)
        }
    }
}
