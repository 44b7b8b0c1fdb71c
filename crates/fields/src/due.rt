// What may stand next in a network file.
ghost use Rattle.std.specs.Prelude.{◌≡◌};
ghost use Rattle.spec.specs.File.{allowed, may_end};
ghost use Rattle.payloads.specs.Tags.{tag_number};
ghost use Rattle.fields.specs.Dues.{due_of};

use payloads::tags::Tag;

/// What may stand next in a network file.
#[derive(Clone, Copy, Debug, PartialEq, Eq)]
pub enum Due {
    /// the weights
    Weights,
    /// a leaf, or the outputs
    Leaves,
    /// the tree, flags, a target, or the end
    Tree,
    /// flags, a target, or the end
    Ask,
    /// the end
    End,
}

impl Due {
    /// May a field of this tag stand next.
    pub fn allows(self, tag: Tag) -> bool
        ensures { result ≡ allowed (due_of self) (tag_number tag) }
    {
        match self {
            Due::Weights => matches!(tag, Tag::Weights),
            Due::Leaves => matches!(tag, Tag::Leaf | Tag::Outputs),
            Due::Tree => matches!(tag, Tag::Tree | Tag::Flags | Tag::Target),
            Due::Ask => matches!(tag, Tag::Flags | Tag::Target),
            Due::End => false,
        }
    }

    /// May the file end here: not before the outputs.
    pub fn may_end(self) -> bool
        ensures { result ≡ may_end (due_of self) }
    {
        match self {
            Due::Weights | Due::Leaves => false,
            Due::Tree | Due::Ask | Due::End => true,
        }
    }
}
