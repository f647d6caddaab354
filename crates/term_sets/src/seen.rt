// Masks that were seen, with marks by which most new ones are told at once.
ghost use Rattle.std.specs.Prelude.{◌≡◌, not, ◌++◌, ◌∷◌, [], ◌<◌, length};
ghost use Rattle.terms.specs.Setting.{most_terms};
ghost use Rattle.term_sets.specs.Seen.{holds, Marked};

use crate::masks::Masks;
use arrayvec::ArrayVec;
use terms::MOST_TERMS;

// At most as many masks as a set has terms. Those whose mark is not set are new; only where it is set are the others looked at.
#[derive(Drop)]
pub(crate) struct Seen {
    masks: ArrayVec<Masks, MOST_TERMS>,
    marks: [bool; 256],
    ghost marked: { Marked masks.items marks },
}

impl Seen {
    pub(crate) fn new() -> Seen
        ensures { result.masks.items ≡ [] }
    {
        Seen {
            masks: ArrayVec::new(),
            marks: [false; 256],
        }
    }

    // Whether masks are new; they are seen then.
    pub(crate) fn insert(&mut self, x: Masks) -> bool
        requires { length self.old.masks.items < most_terms }
        ensures answer { result ≡ not (holds self.old.masks.items x) }
        ensures last { self.new.masks.items ≡ self.old.masks.items ++ x ∷ [] }
    {
        let at = x.mark();
        let is_new = !self.marks[at] || !self.masks.contains(&x);
        self.masks.push(x);
        self.marks[at] = true;
        is_new
    }

    // Those seen, in their order.
    pub(crate) fn masks(&self) -> &[Masks]
        ensures { result.now ≡ self.now.masks.items }
    {
        self.masks.as_slice()
    }
}
