// Compares our answers with those of the Rust: reads the records of `vectors.bin` in the folder it is run in, and prints a line for each opcode.
#![tactic(auto)]

mod answers;
mod arguments;
mod calls;
mod fault;
mod forms;
mod lists;
mod names;
mod operator_answers;
mod product_answers;
mod reader;
mod records;
mod replies;
mod report;
mod row_answers;
mod sets;
mod single_letters;

use std::alloc::AllocError;
use std::fs::File;

// What can't be printed is passed over.
fn main(rt: HostRuntime) -> Result<(), AllocError> {
    let Ok(file) = File::open(&rt, "vectors.bin") else {
        let _ = println!(rt; "vectors.bin: cannot be opened");
        return Ok(());
    };
    let report = records::compared(&rt, file)?;
    let _ = print!(rt; "{report}");
    Ok(())
}
