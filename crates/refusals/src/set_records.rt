// Sets and pairs of a case, from its numbers; well-formed or not.
use crate::numbers::{Numbers, Placed, coefficient, two_items};
use spins::{Complex, Items, MOST_TERMS, NoiseSet, Set, Term, TermSet};
use std::array;

const X0: Placed = Placed { site: 0, letter: 1 };

// No letter, in a place past the count.
const NONE: Placed = Placed { site: 0, letter: 0 };

// The product of one letter.
fn one_item(letter: Placed) -> Items {
    two_items(1, letter, 1, NONE)
}

// The first n of 64 different keys: X on the sites 0 to 30, then Y, then Z.
fn filled(n: usize, coefficient: Complex) -> TermSet {
    let mut s = Set::new();
    for i in 0..n.min(MOST_TERMS) {
        let key = one_item(Placed {
            site: (i % 31) as u8,
            letter: (1 + i / 31) as u8,
        });
        s.terms[i] = Term { key, coefficient };
    }
    s
}

// 1Z and 2Z, then products below the place n, each with minus X0 times it.
fn cancelling(n: usize) -> TermSet {
    let one = coefficient(1);
    let minus_one = coefficient(2);
    let mut s = Set::new();
    for i in 0..2 {
        let z = Placed {
            site: i as u8 + 1,
            letter: 3,
        };
        s.terms[i] = Term {
            key: one_item(z),
            coefficient: one,
        };
    }
    for i in 0..31 {
        let at = 2 + 2 * i;
        if at < n {
            let key = Placed {
                site: (1 + i % 30) as u8,
                letter: (1 + i / 30) as u8,
            };
            s.terms[at] = Term {
                key: one_item(key),
                coefficient: one,
            };
            s.terms[at + 1] = Term {
                key: two_items(2, X0, 1, key),
                coefficient: minus_one,
            };
        }
    }
    s
}

impl Numbers<'_> {
    // A set: how many keys are filled in (from 100 on, cancelling) and with what coefficient, then the place, the product and the
    // coefficient of one more term, then the count.
    pub(crate) fn set(&mut self) -> TermSet {
        let n = self.count();
        let coefficient = self.coefficient();
        let mut s = if n < 100 {
            filled(n, coefficient)
        } else {
            cancelling(n - 100)
        };
        let at = self.count();
        let key = self.product();
        let coefficient = self.coefficient();
        if at < MOST_TERMS {
            s.terms[at] = Term { key, coefficient };
        }
        s.count = self.count();
        s
    }

    // The pairs of two sets' products at the same place, with the coefficients and the count of the first.
    pub(crate) fn pairs(&mut self) -> NoiseSet {
        let left = self.set();
        let right = self.set();
        Set {
            count: left.count,
            terms: array::from_fn(|i| Term {
                key: (left.terms[i].key, right.terms[i].key),
                coefficient: left.terms[i].coefficient,
            }),
        }
    }
}
