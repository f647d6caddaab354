// How many records of each opcode were compared, refused and found to differ.
use crate::names::{NAMES, OPCODES};
use std::fmt;
use std::fmt::{Display, Formatter};

#[derive(Clone, Copy)]
struct Counts {
    compared: u64,
    refused: u64,
    differ: u64,
}

#[derive(Clone, Copy)]
pub(crate) struct Report {
    counts: [Counts; OPCODES],
    unparsed: u64,
    // Records altered, and those of them that no longer agree.
    altered: u64,
    noticed: u64,
}

impl Counts {
    const NONE: Counts = Counts {
        compared: 0,
        refused: 0,
        differ: 0,
    };

    const SAME: Counts = Counts {
        compared: 1,
        refused: 0,
        differ: 0,
    };

    const DIFFERING: Counts = Counts {
        compared: 1,
        refused: 0,
        differ: 1,
    };

    const REFUSED: Counts = Counts {
        compared: 0,
        refused: 1,
        differ: 0,
    };

    // Sums, or the highest number where they are higher.
    fn plus(self, other: &Counts) -> Counts {
        Counts {
            compared: self.compared.saturating_add(other.compared),
            refused: self.refused.saturating_add(other.refused),
            differ: self.differ.saturating_add(other.differ),
        }
    }
}

impl Display for Counts {
    fn fmt<W: fmt::Write>(&self, f: &mut Formatter<W>) -> fmt::Result {
        write!(
            f,
            "compared {}, refused {}, differ {}",
            self.compared, self.refused, self.differ
        )
    }
}

impl Report {
    pub(crate) fn new() -> Self {
        Report {
            counts: [Counts::NONE; OPCODES],
            unparsed: 0,
            altered: 0,
            noticed: 0,
        }
    }

    fn add(&mut self, op: u8, counts: Counts) {
        if let Some(place) = self.counts.get_mut(usize::from(op)) {
            *place = place.plus(&counts);
        }
    }

    pub(crate) fn add_same(&mut self, op: u8) {
        self.add(op, Counts::SAME);
    }

    pub(crate) fn add_differing(&mut self, rt: &impl Print, index: u64, op: u8) {
        self.add(op, Counts::DIFFERING);
        let _ = println!(rt; "record {index}: differs");
    }

    pub(crate) fn add_refused(&mut self, rt: &impl Print, index: u64, op: u8) {
        self.add(op, Counts::REFUSED);
        let _ = println!(rt; "record {index}: refused");
    }

    pub(crate) fn add_unparsed(&mut self, rt: &impl Print, index: u64) {
        self.unparsed = self.unparsed.saturating_add(1);
        let _ = println!(rt; "record {index}: does not parse");
    }

    pub(crate) fn add_altered(&mut self, noticed: bool) {
        self.altered = self.altered.saturating_add(1);
        self.noticed = self.noticed.saturating_add(u64::from(noticed));
    }
}

// A line for each opcode, how many records do not parse, how many were altered, and the sums.
impl Display for Report {
    fn fmt<W: fmt::Write>(&self, f: &mut Formatter<W>) -> fmt::Result {
        let mut total = Counts::NONE;
        for (name, counts) in NAMES.iter().zip(&self.counts) {
            writeln!(f, "{name}: {counts}")?;
            total = total.plus(counts);
        }
        writeln!(f, "do not parse: {}", self.unparsed)?;
        writeln!(
            f,
            "altered: {}, no longer agree: {}",
            self.altered, self.noticed
        )?;
        writeln!(f, "{total}")
    }
}
