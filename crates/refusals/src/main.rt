// Runs the table of standard input: a case on each line, called and printed with its number. tests/refusals makes the table.
#![tactic(auto)]

mod chain_calls;
mod entries;
mod noise_calls;
mod numbers;
mod product_calls;
mod report;
mod row_calls;
mod set_calls;
mod set_records;
mod single_letters;
mod table;

use std::io::BufRead;
use table::Line;

// The input ends where it can't be read. Of a file many bytes are there at once, of a pipe one.
fn main(rt: HostRuntime) {
    let mut input = rt.reader();
    let mut line = Line::new();
    for _ in 0..u64::MAX {
        let Ok(bytes) = input.fill_buf() else {
            return;
        };
        let count = bytes.len();
        if count == 0 {
            return;
        }
        line.read(&rt, bytes);
        input.consume(count);
    }
}
