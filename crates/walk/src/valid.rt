// A tree that passes the check, as its ghost field says: the check makes it, or a planner whose tree is proved to pass; all that walk a tree read it.
ghost use Rattle.std.specs.Prelude.{◌≡◌, ◌≤◌, false};
ghost use Rattle.spec.specs.Calls.{wrong_tree};

/// A tree of `leaves` leaves: two places of `kids` an internal node, its left and its right child.
// Stays: the two facts are of this list as a tree of so many leaves; a type for any list and number could not hold them.
#[derive(Clone, Copy)]
pub struct Tree<'a> {
    pub kids: &'a [u16],
    pub leaves: usize,
    ghost few: { leaves ≤ 512 },
    ghost valid: { wrong_tree leaves kids.now ≡ false },
}
