// Runs an open system's row at its limits, and prints one line for each case.
#![tactic(auto)]

mod report;
mod systems;

use observations::buffers::{PLACES, Room};
use report::lent;
use spins::{PauliLindbladOpenSystem, Refusal};
use systems::{at_site, full, noise_at_site, worked};

// No spins, too many spins, and the case of one spin that is worked out by hand.
fn few_spins(rt: &impl Print) -> Result<(), Refusal> {
    let four = Room::each(4);
    let none = PauliLindbladOpenSystem::new();
    lent(rt, "no spins, row 0", &none, 0, 0, four);
    lent(rt, "no spins, row 1", &none, 0, 1, four);
    lent(rt, "32 spins", &none, 32, 0, four);
    let worked = worked()?;
    for row in [0, 1, 4] {
        lent(rt, format_args!("worked, row {row}"), &worked, 1, row, four);
    }
    lent(rt, "worked, row 0, one place", &worked, 1, 0, Room::each(1));
    Ok(())
}

// A site at the spin count, and one below it.
fn sites(rt: &impl Print) -> Result<(), Refusal> {
    let four = Room::each(4);
    for (site, spins) in [(3, 3), (3, 4), (30, 30), (30, 31)] {
        let name = format_args!("site {site} of {spins} spins");
        lent(rt, name, &at_site(site)?, spins, 0, four);
    }
    for spins in [3, 4] {
        let name = format_args!("noise on site 3 of {spins} spins");
        lent(rt, name, &noise_at_site(3)?, spins, 0, four);
    }
    Ok(())
}

// As many places as entries, and one less in some buffer.
fn rooms(entries: usize) -> [(&'static str, Room); 5] {
    let exact = Room::each(entries);
    let less = Room::each(entries.saturating_sub(1));
    [
        ("exact places", exact),
        ("one place less", less),
        (
            "one column less",
            Room {
                columns: less.columns,
                ..exact
            },
        ),
        (
            "one real part less",
            Room {
                re: less.re,
                ..exact
            },
        ),
        (
            "one imaginary part less",
            Room {
                im: less.im,
                ..exact
            },
        ),
    ]
}

// A full system in one row: with places to spare, with as many as entries, and with one less.
fn full_row(rt: &impl Print, s: &PauliLindbladOpenSystem, row: u64) {
    let name = format_args!("full, row {row}, all places");
    let count = lent(rt, name, s, 31, row, Room::each(PLACES));
    for (places, room) in rooms(count) {
        let name = format_args!("full, row {row}, {places}");
        lent(rt, name, s, 31, row, room);
    }
}

fn main(rt: HostRuntime) -> Result<(), Refusal> {
    few_spins(&rt)?;
    sites(&rt)?;
    let full = full()?;
    full_row(&rt, &full, 0);
    full_row(&rt, &full, 4611686018427387903);
    let all = Room::each(PLACES);
    lent(
        &rt,
        "full, row past the last",
        &full,
        31,
        4611686018427387904,
        all,
    );
    lent(&rt, "full, 30 spins", &full, 30, 0, all);
    Ok(())
}
