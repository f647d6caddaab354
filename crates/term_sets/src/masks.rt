// Masks by which keys are told apart.
ghost use Rattle.std.specs.Prelude.{◌≡◌};
ghost use Rattle.term_sets.specs.Seen.{mark_of};

// The masks of a key: those of its product, or of its left and its right one.
#[derive(Clone, Copy, Default, PartialEq, Eq, Debug)]
pub struct Masks {
    pub left: u64,
    pub right: u64,
}

impl Masks {
    // The place of their mark.
    pub(crate) fn mark(self) -> usize
        ensures { result ≡ mark_of self }
    {
        ((self.left % 251 + 5 * (self.right % 251)) % 251) as usize
    }
}
