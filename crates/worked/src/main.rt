// Prints the exact rows of the Hamiltonian 3 Z0 with the noise (X0, X0), 2, over one spin: a header with the spins and how many entries there
// are, and for each entry a line with row, column, real halves and imaginary halves.
#![tactic(auto)]

mod report;
mod system;

fn main(rt: HostRuntime) {
    match system::worked() {
        Ok(s) => report::print_rows(&rt, &s),
        Err(why) => {
            let _ = println!(rt; "refused under number {}", why.number());
        }
    }
}
