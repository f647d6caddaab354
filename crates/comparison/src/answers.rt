// Powers of i beside the Rust's numbers.
use observations::records::Same;
use spins::Complex;

// i to the powers 0 to 3.
const POWERS: [Complex; 4] = [
    Complex { re: 1.0, im: 0.0 },
    Complex { re: 0.0, im: 1.0 },
    Complex { re: -1.0, im: 0.0 },
    Complex { re: 0.0, im: -1.0 },
];

// Whether i to a power is the Rust's number, in both parts; a power above 3 is none.
pub(crate) fn is_power(power: u8, told: impl Into<Complex>) -> bool {
    let told = told.into();
    POWERS
        .get(usize::from(power))
        .is_some_and(|z| z.same(false, &told))
}
