// The row entries: a set, two sets whose products make the pairs of noise, the spins, the row and the places of the three buffers.
use crate::entries::Terms;
use crate::numbers::Numbers;
use observations::buffers::{Buffers, Lent, Room};
use spins::{
    PauliHamiltonian, PauliLindbladNoiseOperator, PauliLindbladOpenSystem, PauliOperator, Refusal,
    commutator_row, exact_row, hamiltonian_commutator_row, hamiltonian_row, noise_row, open_row,
    operator_of, operator_row,
};
use std::io;

// Whose row is asked for: an operator, the system that has its terms as its Hamiltonian, and which row over how many spins.
#[derive(Clone, Copy)]
struct Asked {
    operator: PauliOperator,
    system: PauliLindbladOpenSystem,
    spins: u32,
    row: u64,
}

impl Numbers<'_> {
    fn asked(&mut self) -> Asked {
        let terms = self.set();
        let system = PauliLindbladOpenSystem {
            system: PauliHamiltonian::of(terms),
            noise: PauliLindbladNoiseOperator { set: self.pairs() },
        };
        let spins = self.narrow();
        let row = self.number();
        Asked {
            operator: operator_of(terms),
            system,
            spins,
            row,
        }
    }

    fn room(&mut self) -> Room {
        let columns = self.count();
        let re = self.count();
        let im = self.count();
        Room { columns, re, im }
    }
}

// A row in f64.
fn float_row(entry: u64, a: &Asked, room: Room, lent: &mut Buffers<f64>) -> Result<usize, Refusal> {
    let (h, noise) = (&a.system.system, &a.system.noise);
    let (columns, re, im) = lent.lend(room);
    match entry {
        50 => operator_row(&a.operator, a.spins, a.row, columns, re, im),
        51 => commutator_row(&a.operator, a.spins, a.row, columns, re, im),
        52 => hamiltonian_row(h, a.spins, a.row, columns, re, im),
        53 => hamiltonian_commutator_row(h, a.spins, a.row, columns, re, im),
        54 => noise_row(noise, a.spins, a.row, columns, re, im),
        _ => open_row(&a.system, a.spins, a.row, columns, re, im),
    }
}

// A row in halves.
fn halves_row(a: &Asked, room: Room, lent: &mut Buffers<i64>) -> Result<usize, Refusal> {
    let (columns, re, im) = lent.lend(room);
    exact_row(&a.system, a.spins, a.row, columns, re, im)
}

// The count or the number that a call answers, and whether the rest of the buffers is as before.
fn delivered<T: Lent, F: FnOnce(&mut Buffers<T>) -> Result<usize, Refusal>>(
    rt: &impl Print,
    mut lent: Buffers<T>,
    call: F,
) -> io::Result<()>
    requires { F.IsAlwaysCallable call }
{
    let answer = call(&mut lent);
    let n = answer.unwrap_or(0);
    let after = if lent.kept(n) { "as before" } else { "changed" };
    match answer {
        Ok(n) => println!(rt; "accepted, entries {n}; rest {after}"),
        Err(why) => println!(rt; "refused {why}; buffers {after}"),
    }
}

pub(crate) fn call(rt: &impl Print, entry: u64, numbers: &mut Numbers) -> io::Result<()> {
    let asked = numbers.asked();
    let room = numbers.room();
    if entry == 56 {
        delivered(rt, Buffers::new(), |lent| halves_row(&asked, room, lent))
    } else {
        delivered(
            rt,
            Buffers::new(),
            |lent| float_row(entry, &asked, room, lent),
        )
    }
}
