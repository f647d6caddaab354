// One site of a product set, freed or read.
ghost use Rattle.std.specs.Prelude.{◌≡◌, ◌<◌, suc, ◌≤◌, max, MatchOption};
ghost use Rattle.items.specs.Lists.{at};
ghost use Rattle.items.specs.Record.{letter_at, update, reach, record_of, highest_site};
ghost use Rattle.letters.specs.Answers.{highest_letter};
ghost use Rattle.merging.specs.Places.{place_of};
ghost use Rattle.merging.specs.SiteAnswers.{said_got, get_answer, set_answer};
ghost use Rattle.items.specs.Answers.{told};

use items::valid::ValidItems;
use items::{HIGHEST_SITE, Items, Site};
use letters::HIGHEST_LETTER;
use refusal::Refusal;

// The first place whose site is not below the given one, or the count.
fn place_of(p: &ValidItems, site: Site) -> usize
    ensures { result ≡ place_of p.now.items site }
{
    p.items
        .sites
        .iter()
        .take(p.items.count)
        .position(|&s| site <= s)
        .unwrap_or(p.items.count)
}

// p with a letter on a free site: the places from the site's own on go up by one.
fn inserted(p: &ValidItems, place: usize, site: Site, letter: u8) -> Items
    requires { (site ≤ highest_site) × (0 < letter) × (letter ≤ highest_letter) × (place ≡ place_of p.now.items site) × (letter_at p.now.items site ≡ 0) }
    ensures { result ≡ record_of (update (letter_at p.now.items) site letter) (max (reach p.now.items) (suc site)) }
{
    let mut q = p.items;
    let count = q.count;
    q.sites[place..=count].rotate_right(1);
    q.letters[place..=count].rotate_right(1);
    q.sites[place] = site;
    q.letters[place] = letter;
    q.count = count + 1;
    q
}

// p without one of its places: those after it go down by one, and zeros stand where the last one stood.
fn removed(p: &ValidItems, place: usize) -> Items
    requires { place < p.now.items.count }
    ensures { result ≡ record_of (update (letter_at p.now.items) (at p.now.items.sites place) 0) (reach p.now.items) }
{
    let mut q = p.items;
    let count = q.count;
    q.sites[place..count].rotate_left(1);
    q.letters[place..count].rotate_left(1);
    q.sites[count - 1] = 0;
    q.letters[count - 1] = 0;
    q.count = count - 1;
    q
}

// p with another letter at one of its places.
fn replaced(p: &ValidItems, place: usize, letter: u8) -> Items
    requires { (place < p.now.items.count) × (0 < letter) × (letter ≤ highest_letter) }
    ensures { result ≡ record_of (update (letter_at p.now.items) (at p.now.items.sites place) letter) (reach p.now.items) }
{
    let mut q = p.items;
    q.letters[place] = letter;
    q
}

// p with a letter on a site; the identity frees it.
fn put(p: &ValidItems, site: Site, letter: u8) -> Items
    requires { (site ≤ highest_site) × (letter ≤ highest_letter) }
    ensures { result ≡ record_of (update (letter_at p.now.items) site letter) (max (reach p.now.items) (suc site)) }
{
    let place = place_of(p, site);
    let is_taken = place < p.items.count && p.items.sites[place] == site;
    match (is_taken, letter) {
        (true, 0) => removed(p, place),
        (true, _) => replaced(p, place, letter),
        (false, 0) => p.items,
        (false, _) => inserted(p, place, site, letter),
    }
}

// The letter on a site; none on a free one.
pub(crate) fn letter_at(p: &ValidItems, site: Site) -> Option<u8>
    ensures { MatchOption result (letter_at p.now.items site ≡ 0) (λ l. (l ≡ letter_at p.now.items site) × (0 < l)) }
{
    let place = p
        .items
        .sites
        .iter()
        .take(p.items.count)
        .position(|&s| s == site)?;
    Some(p.items.letters[place])
}

#[tactic(auto, unfolding(crate::specs::SiteAnswers::get_answer))]
pub fn get(p: &Items, site: Site) -> Result<Option<u8>, Refusal>
    ensures { said_got result ≡ get_answer p.now site }
{
    let p = p.checked()?;
    if HIGHEST_SITE < site {
        return Err(Refusal::SiteTooHigh(usize::from(site)));
    }
    Ok(letter_at(&p, site))
}

#[tactic(auto, unfolding(crate::specs::SiteAnswers::set_answer))]
pub fn set_pauli(p: &Items, site: Site, letter: u8) -> Result<Items, Refusal>
    ensures { told p.now result ≡ set_answer p.now site letter }
{
    let p = p.checked()?;
    if HIGHEST_SITE < site {
        return Err(Refusal::SiteTooHigh(usize::from(site)));
    }
    if HIGHEST_LETTER < letter {
        return Err(Refusal::UnknownLetter);
    }
    Ok(put(&p, site, letter))
}
