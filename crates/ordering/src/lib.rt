// The order of products.
#![tactic(auto)]

ghost use Rattle.std.specs.Prelude.{◌≡◌, ◌≤◌};
ghost use Rattle.ordering.specs.Orders.{ordering, compare_lists, pairs, compare_items, said_order, compare_answer};
ghost use Rattle.items.specs.Record.{capacity};

use items::Items;
use items::valid::ValidItems;
use letters::Kind;
use refusal::Refusal;
use std::cmp::Ordering;

// The first n places, pair by pair: the first that differs decides, by its site and then by its letter.
fn compare_pairs(p: &Items, q: &Items, n: usize) -> Ordering
    requires { n ≤ capacity }
    ensures { ordering result ≡ compare_lists (pairs p.now.sites p.now.letters n) (pairs q.now.sites q.now.letters n) }
{
    for i in 0..n {
        let o = p.sites[i]
            .cmp(&q.sites[i])
            .then(p.letters[i].cmp(&q.letters[i]));
        if o != Ordering::Equal {
            return o;
        }
    }
    Ordering::Equal
}

// The counts, then what the kind says: all sites and then all letters, or pair by pair.
#[tactic(auto, using(items::proofs::RecordLaws::count_fits))]
fn compare_items(kind: Kind, p: &ValidItems, q: &ValidItems) -> Ordering
    ensures { ordering result ≡ compare_items kind p.now.items q.now.items }
{
    let p = p.items;
    let q = q.items;
    let n = p.count;
    let counts = n.cmp(&q.count);
    if counts != Ordering::Equal {
        return counts;
    }
    match kind {
        Kind::Pauli => p.sites[..n]
            .cmp(&q.sites[..n])
            .then(p.letters[..n].cmp(&q.letters[..n])),
        Kind::Decoherence => compare_pairs(&p, &q, n),
    }
}

// How p stands to q in the order of a kind.
#[tactic(auto, unfolding(crate::specs::Orders::compare_answer))]
pub fn compare(kind: Kind, p: &Items, q: &Items) -> Result<Ordering, Refusal>
    ensures { said_order result ≡ compare_answer kind p.now q.now }
{
    let p = p.checked()?;
    let q = q.checked()?;
    Ok(compare_items(kind, &p, &q))
}
