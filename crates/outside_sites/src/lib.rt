// The site that refuses a row call under 8: the first product with a site at the spin count or above, by its highest site.
#![tactic(auto)]

ghost use Rattle.std.specs.Prelude.{◌≡◌, [], ◌∷◌};
ghost use Rattle.refusal.specs.Refusals.{listed};
ghost use Rattle.rows.specs.Calls.{outside};
ghost use Rattle.term_sets.specs.Complexes as complexes;
ghost use Rattle.term_sets.specs.Complexes.{items_of};
ghost use Rattle.noise_sets.specs.Pairs as pairs;
ghost use Rattle.outside_sites.specs.SystemItems.{system_items};

use items::Items;
use term_sets::{NoiseSet, TermSet};

// The highest site of a product, where it is at the spin count or above.
fn of_product(p: &Items, spins: u32) -> Option<usize>
    ensures { listed result ≡ outside spins (p.now ∷ []) }
{
    let reach = p.reach();
    if (spins as usize) < reach {
        return Some(reach - 1);
    }
    None
}

// Of an operator's terms.
pub fn of_operator(s: &TermSet, spins: u32) -> Option<usize>
    ensures { listed result ≡ outside spins (items_of (complexes.held_by s.now)) }
{
    for t in s.held() {
        let site = of_product(&t.key, spins);
        if site.is_some() {
            return site;
        }
    }
    None
}

// Of a noise set's terms, left side first.
pub fn of_noise(s: &NoiseSet, spins: u32) -> Option<usize>
    ensures { listed result ≡ outside spins (pairs.sides_of (pairs.held_by s.now)) }
{
    for t in s.held() {
        let site = of_product(&t.key.0, spins).or(of_product(&t.key.1, spins));
        if site.is_some() {
            return site;
        }
    }
    None
}

// Of both parts of a system, the Hamiltonian before the noise.
pub fn outside_site(h: &TermSet, n: &NoiseSet, spins: u32) -> Option<usize>
    ensures { listed result ≡ outside spins (system_items (complexes.held_by h.now) (pairs.held_by n.now)) }
{
    of_operator(h, spins).or(of_noise(n, spins))
}
