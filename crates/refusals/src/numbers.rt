// The numbers of a case, and what they stand for: coefficients, products and targets, well-formed or not.
use spins::{CAPACITY, Complex, Items, SITE_COUNT, Site};
use std::array;

// 2^300, the largest coefficient, and the next f64 above it.
const LIMIT: f64 =
    2037035976334486086268445688409378161051468393665936250636140449354381299763336706183397376.0;

const OVER: f64 =
    2037035976334486538581294271675766534375628583853076302472018049512834578894524237094060032.0;

// 2^299, 2^200 and 2^150.
const HALF_LIMIT: f64 =
    1018517988167243043134222844204689080525734196832968125318070224677190649881668353091698688.0;

const LARGE: f64 = 1606938044258990275541962092341162602522202993782792835301376.0;

const ROOT: f64 = 1427247692705959881058285969449495136382746624.0;

// 2^40, the largest whole part.
const WHOLE: f64 = 1099511627776.0;

// The next f64 above 1, and 2^248, what 2^300 lacks of the next one above it.
const NEXT: f64 = 1.0000000000000002;

const GAP: f64 = 452312848583266388373324160190187140051835877600158453279131187530910662656.0;

// A part of a coefficient, by its code.
fn part(code: u64) -> f64 {
    match code {
        1 => 1.0,
        2 => -1.0,
        3 => -0.0,
        4 => LIMIT,
        5 => OVER,
        6 => -LIMIT,
        7 => -OVER,
        8 => f64::INFINITY,
        9 => f64::NAN,
        10 => HALF_LIMIT,
        11 => LARGE,
        12 => -LARGE,
        13 => ROOT,
        14 => 2.0,
        15 => 0.5,
        16 => WHOLE,
        17 => WHOLE + 1.0,
        18 => -WHOLE,
        19 => -WHOLE - 1.0,
        20 => NEXT,
        21 => GAP,
        22 => -GAP,
        23 => 1.0 / LIMIT / LIMIT,
        _ => 0.0,
    }
}

// A coefficient: the code of its imaginary part, then two digits for the real one.
pub(crate) fn coefficient(x: u64) -> Complex {
    Complex {
        re: part(x % 100),
        im: part(x / 100),
    }
}

// The lowest byte, as a site or a letter.
fn small(x: u64) -> u8 {
    (x % 256) as u8
}

// A letter on a site, as it stands at a place of a record.
#[derive(Clone, Copy)]
pub(crate) struct Placed {
    pub site: Site,
    pub letter: u8,
}

// A record with its first place written and a second one, under a count.
pub(crate) fn two_items(count: usize, first: Placed, at: usize, second: Placed) -> Items {
    let mut p = Items::new();
    p.sites[0] = first.site;
    p.letters[0] = first.letter;
    if at < CAPACITY {
        p.sites[at] = second.site;
        p.letters[at] = second.letter;
    }
    p.count = count;
    p
}

// The sites 0 to 30.
fn all_sites() -> [Site; SITE_COUNT] {
    array::from_fn(|site| site as Site)
}

// A product: its count, then twice two digits for a site and one for its letter. From 30 on X stands on each site. A digit before the
// count's two puts the second letter at the last place.
fn product(x: u64) -> Items {
    let count = (x / 1000000 % 100) as usize;
    if 29 < count {
        return Items {
            count,
            sites: all_sites(),
            letters: [1; CAPACITY],
        };
    }
    let first = Placed {
        site: small(x / 10000 % 100),
        letter: small(x / 1000 % 10),
    };
    let second = Placed {
        site: small(x / 10 % 100),
        letter: small(x % 10),
    };
    let at = if x < 100000000 { 1 } else { CAPACITY - 1 };
    two_items(count, first, at, second)
}

// The numbers that have not been read.
#[derive(Drop)]
pub(crate) struct Numbers<'a> {
    rest: &'a [u64],
}

impl<'a> Numbers<'a> {
    pub(crate) fn new(numbers: &'a [u64]) -> Numbers<'a> {
        Numbers { rest: numbers }
    }

    // The next number, 0 where none is left.
    pub(crate) fn number(&mut self) -> u64 {
        let Some((first, rest)) = self.rest.split_first() else {
            return 0;
        };
        self.rest = rest;
        *first
    }

    // A site or a letter.
    pub(crate) fn small(&mut self) -> u8 {
        small(self.number())
    }

    // A count of spins.
    pub(crate) fn narrow(&mut self) -> u32 {
        (self.number() % 4294967296) as u32
    }

    // A count.
    pub(crate) fn count(&mut self) -> usize {
        self.number() as usize
    }

    pub(crate) fn coefficient(&mut self) -> Complex {
        coefficient(self.number())
    }

    pub(crate) fn product(&mut self) -> Items {
        product(self.number())
    }

    // The targets 0 to 30 with three of them replaced: a spin, then three digits for its target.
    pub(crate) fn targets(&mut self) -> [Site; SITE_COUNT] {
        let mut targets = all_sites();
        for _ in 0..3 {
            let x = self.number();
            targets[(x / 1000 % 31) as usize] = small(x % 1000);
        }
        targets
    }
}
