// Records that number 0 lets pass.
ghost use Rattle.std.specs.Prelude.{◌≡◌, true};
ghost use Rattle.items.specs.Record.{valid};

use crate::Items;

#[derive(Clone, Copy)]
pub struct ValidItems {
    pub items: Items,
    ghost is_valid: { valid items ≡ true },
}
