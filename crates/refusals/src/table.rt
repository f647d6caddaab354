// A line of the table: numbers, each before a blank and the first of them the entry, and then the name of the case, which is printed as it is read.
use crate::numbers::Numbers;
use crate::{chain_calls, noise_calls, product_calls, row_calls, set_calls, single_letters};
use std::io;

// The most numbers of a line; those past them are not looked at.
const MOST_NUMBERS: usize = 26;

// From here on a number takes no further digit.
const LONG: u64 = 1000000000000000000;

// A line as far as it is read: the number that is being read and those before it, and whether the name has begun.
#[derive(Clone, Copy)]
pub(crate) struct Line {
    number: u64,
    numbers: [u64; MOST_NUMBERS],
    count: usize,
    is_named: bool,
}

impl Line {
    pub(crate) fn new() -> Self {
        Line {
            number: 0,
            numbers: [0; MOST_NUMBERS],
            count: 0,
            is_named: false,
        }
    }

    fn add_digit(&mut self, digit: u8) {
        if self.number < LONG {
            self.number = self.number * 10 + u64::from(digit % 16);
        }
    }

    fn end_number(&mut self) {
        if let Some(place) = self.numbers.get_mut(self.count) {
            *place = self.number;
            self.count += 1;
        }
        self.number = 0;
    }

    // Takes in a byte before the name: whether the name begins with it.
    fn begins_name(&mut self, byte: u8) -> bool {
        match byte {
            b' ' => self.end_number(),
            b'0'..=b'9' => self.add_digit(byte),
            _ => self.is_named = true,
        }
        self.is_named
    }

    // Takes in the bytes that are there: a name is printed as far as it is among them, and a line that ends is run. What can't be printed is passed
    // over.
    pub(crate) fn read(&mut self, rt: &impl Print, bytes: &[u8]) {
        let mut start = 0;
        for (i, byte) in bytes.iter().enumerate() {
            if *byte == b'\n' {
                if self.is_named {
                    let _ = rt.write_all(between(bytes, start, i));
                }
                let numbers = self.numbers;
                *self = Line::new();
                let _ = run(rt, &numbers);
            } else if !self.is_named && self.begins_name(*byte) {
                start = i;
            }
        }
        if self.is_named {
            let _ = rt.write_all(between(bytes, start, bytes.len()));
        }
    }
}

// The bytes from one place to another.
fn between(bytes: &[u8], start: usize, end: usize) -> &[u8] {
    let (before, _) = bytes.split_at_checked(end).unwrap_or((bytes, &[]));
    let (_, part) = before.split_at_checked(start).unwrap_or((&[], before));
    part
}

// The call of a line, printed after its name.
fn run(rt: &impl Print, line: &[u64; MOST_NUMBERS]) -> io::Result<()> {
    let _ = print!(rt; ": ");
    let mut numbers = Numbers::new(line);
    let entry = numbers.number();
    match entry {
        0..=9 => single_letters::call(rt, entry, &mut numbers),
        10..=19 => product_calls::call(rt, entry, &mut numbers),
        20..=29 => set_calls::call(rt, entry, &mut numbers),
        30..=39 => chain_calls::call(rt, entry, &mut numbers),
        40..=49 => noise_calls::call(rt, entry, &mut numbers),
        _ => row_calls::call(rt, entry, &mut numbers),
    }
}
