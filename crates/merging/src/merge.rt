// Two products brought together site by site, in one pass over both.
ghost use Rattle.std.specs.Prelude.{◌≡◌, ◌≤◌, ◌%◌};
ghost use Rattle.items.specs.Record.{capacity, letter_at, reach_of, record_of};
ghost use Rattle.merging.specs.Places.{next_site};
ghost use Rattle.letters.specs.Matrices.{letters_of};
ghost use Rattle.letters.specs.Single.{letter_of, power_of, times};
ghost use Rattle.letters.specs.Sums.{total};

use items::valid::ValidItems;
use items::{CAPACITY, HIGHEST_SITE, Items, ScaledItems, Site};
use letters::Kind;

// The site at a place, or a number above every site.
fn next_site(count: usize, sites: &[Site; CAPACITY], i: usize) -> usize
    requires { count ≤ capacity }
    ensures { result ≡ next_site count sites.now i }
{
    if i < count {
        return usize::from(sites[i]);
    }
    usize::from(HIGHEST_SITE) + 1
}

// The product of two products, with its power of i: one pass over both, into arrays of its own. Each turn takes the lower of the next two sites,
// or both where they are the same, so that no iterator goes over either alone.
pub(crate) fn merged(kind: Kind, left: &ValidItems, right: &ValidItems) -> ScaledItems
    ensures power { result.power ≡ total (λ s. power_of (times (letters_of kind) (letter_at left.now.items s) (letter_at right.now.items s))) (reach_of left.now.items right.now.items) % 4 }
    ensures items { result.items ≡ record_of (λ s. letter_of (times (letters_of kind) (letter_at left.now.items s) (letter_at right.now.items s))) (reach_of left.now.items right.now.items) }
{
    let p = left.items;
    let q = right.items;
    let total = p.count + q.count;
    let mut sites: [Site; CAPACITY] = [0; CAPACITY];
    let mut letters: [u8; CAPACITY] = [0; CAPACITY];
    let mut count: usize = 0;
    let mut power: u8 = 0;
    let mut i: usize = 0;
    let mut j: usize = 0;
    while i + j < total {
        let a = next_site(p.count, &p.sites, i);
        let b = next_site(q.count, &q.sites, j);
        if a < b {
            sites[count] = p.sites[i];
            letters[count] = p.letters[i];
            count += 1;
            i += 1;
        } else if b < a {
            sites[count] = q.sites[j];
            letters[count] = q.letters[j];
            count += 1;
            j += 1;
        } else {
            let x = kind.multiply(p.letters[i], q.letters[j]).unwrap();
            if 0 < x.letter {
                sites[count] = p.sites[i];
                letters[count] = x.letter;
                count += 1;
            }
            power = (power + x.power) % 4;
            i += 1;
            j += 1;
        }
    }
    let items = Items {
        count,
        sites,
        letters,
    };
    ScaledItems { power, items }
}
