// The refusals of document 01's table, and what an entry that only does or refuses answers.
#![tactic(auto)]

ghost use Rattle.std.specs.Prelude.{◌≡◌, Some};
ghost use Rattle.refusal.specs.Refusals.{number, site_of, listed};
ghost use Rattle.refusal.specs.Texts.{refusal_text};

use std::fmt;
use std::fmt::{Display, Formatter};

// Why a call is refused. The numbers are `number`'s, in the order of the table.
#[derive(Clone, Copy, PartialEq, Eq, Debug)]
pub enum Refusal {
    // 0: a record handed in that the entries never make.
    Malformed,
    // 1: a site above the highest one; the site, or in remapping the target.
    SiteTooHigh(usize),
    // 2: a letter code above 3.
    UnknownLetter,
    // 3: a site that is taken, or a target that two sites share.
    SiteOccupied(usize),
    // 4: an empty side of a pair, or an operator without terms.
    EmptySide,
    // 5: a coefficient that is not a number within the limit.
    CoefficientOutOfRange,
    // 6: one term more than a set holds.
    SetFull,
    // 7: more spins than a row takes.
    TooManySpins,
    // 8: a term that does not fit the spin count; its highest site.
    SiteOutsideSpins(usize),
    // 9: a row that the matrix does not have.
    RowOutOfRange,
    // 10: a lent buffer that is shorter than the row.
    BufferTooShort,
    // 11: a coefficient that is not whole, in a call that asks for whole ones.
    NotWhole,
}

impl Refusal {
    pub fn number(self) -> u32
        ensures { result ≡ number self }
    {
        match self {
            Refusal::Malformed => 0,
            Refusal::SiteTooHigh(_) => 1,
            Refusal::UnknownLetter => 2,
            Refusal::SiteOccupied(_) => 3,
            Refusal::EmptySide => 4,
            Refusal::CoefficientOutOfRange => 5,
            Refusal::SetFull => 6,
            Refusal::TooManySpins => 7,
            Refusal::SiteOutsideSpins(_) => 8,
            Refusal::RowOutOfRange => 9,
            Refusal::BufferTooShort => 10,
            Refusal::NotWhole => 11,
        }
    }

    // The site that 1, 3 and 8 carry.
    pub fn site(self) -> Option<usize>
        ensures { listed result ≡ site_of self }
    {
        match self {
            Refusal::SiteTooHigh(s) | Refusal::SiteOccupied(s) | Refusal::SiteOutsideSpins(s) => {
                Some(s)
            }
            _ => None,
        }
    }
}

// The number, and the site where there is one.
impl Display for Refusal {
    ghost output = { λ why. Some (refusal_text why) };

    fn fmt<W: fmt::Write>(&self, f: &mut Formatter<W>) -> fmt::Result {
        write!(f, "{}", self.number())?;
        match self.site() {
            Some(s) => write!(f, " site {}", s),
            None => Ok(()),
        }
    }
}
