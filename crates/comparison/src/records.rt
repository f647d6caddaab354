// The records of a file, compared by their opcodes: each is a length of two bytes, the low one first, then so many bytes.
ghost use Rattle.std.specs.Prelude.{◌≤◌, length};

use crate::fault::Fault;
use crate::reader::Reader;
use crate::report::Report;
use crate::{calls, lists, operator_answers, product_answers, row_answers, single_letters};
use std::alloc::{AllocError, Global};
use std::fs::File;
use std::io::Read;

// The length of the longest record.
const LONGEST: usize = 65535;

// Reads until a buffer is full, the file ends or a read fails: how many bytes it put at the buffer's start.
fn read_full(file: &mut File, buffer: &mut [u8]) -> usize
    ensures { result ≤ length buffer.new }
{
    let mut done = 0;
    while done < buffer.len() {
        match file.read(&mut buffer[done..]) {
            Ok(0) | Err(_) => return done,
            Ok(n) => done += n,
        }
    }
    done
}

// Reads the next record to a buffer's start: its length, none at the file's end. One within which the file ends, or can't be read on, comes as
// an empty one.
fn read_record(file: &mut File, buffer: &mut [u8]) -> Option<usize> {
    let mut head = [0; 2];
    let got = read_full(file, &mut head);
    if got == 0 {
        return None;
    }
    let length = usize::from(u16::from_le_bytes(head));
    if got < 2 || buffer.len() < length {
        return Some(0);
    }
    if read_full(file, &mut buffer[..length]) < length {
        return Some(0);
    }
    Some(length)
}

#[derive(Clone, Copy)]
struct Record<'a> {
    op: u8,
    // What follows the opcode.
    bytes: &'a [u8],
}

impl<'a> Record<'a> {
    fn new(bytes: &'a [u8]) -> Option<Self> {
        let (op, bytes) = bytes.split_first()?;
        Some(Record { op: *op, bytes })
    }

    // Whether our answers are the Rust's.
    fn compared(self, alloc: Global) -> Result<bool, Fault> {
        let mut reader = Reader::new(alloc, self.bytes);
        let reader = &mut reader;
        match self.op {
            0..=16 => product_answers::compared(self.op, reader),
            17..=20 | 38 => calls::compared(self.op, reader),
            25..=32 => row_answers::compared(self.op, reader),
            33 => lists::compared(reader),
            40..=44 => single_letters::compared(self.op, reader),
            _ => operator_answers::compared(self.op, reader),
        }
    }

    // Whether the record no longer agrees when one of its last 32 bytes is altered. Where that byte is in the answer, it must not.
    fn notices(self, alloc: Global, index: u64) -> Result<bool, AllocError> {
        let back = 1 + (index / 8 % 32) as usize;
        let Some(at) = self.bytes.len().checked_sub(back) else {
            return Ok(false);
        };
        let mut bytes = self.bytes.to_vec(alloc)?;
        bytes[at] ^= 1;
        let altered = Record {
            op: self.op,
            bytes: &bytes,
        };
        match altered.compared(alloc) {
            Err(Fault::Memory(error)) => Err(error),
            outcome => Ok(!outcome.unwrap_or(false)),
        }
    }
}

// The report on a file, whose records are counted from 1. Every eighth one, where it agrees, is altered and compared again.
pub(crate) fn compared(
    rt: &(impl Print + AllocGlobal),
    mut file: File,
) -> Result<Report, AllocError> {
    let mut buffer = [0; LONGEST];
    let mut report = Report::new();
    for index in 1..u64::MAX {
        let Some(length) = read_record(&mut file, &mut buffer) else {
            break;
        };
        let (bytes, _) = buffer.split_at_checked(length).unwrap_or((&[], &[]));
        let Some(record) = Record::new(bytes) else {
            report.add_unparsed(rt, index);
            continue;
        };
        match record.compared(rt.alloc()) {
            Ok(true) => {
                report.add_same(record.op);
                if index % 8 == 0 {
                    report.add_altered(record.notices(rt.alloc(), index)?);
                }
            }
            Ok(false) => report.add_differing(rt, index, record.op),
            Err(Fault::Refused) => report.add_refused(rt, index, record.op),
            Err(Fault::Unparsed) => report.add_unparsed(rt, index),
            Err(Fault::Memory(error)) => return Err(error),
        }
    }
    Ok(report)
}
