// The tags of a network file's fields.
ghost use Rattle.std.specs.Prelude.{◌≡◌};
ghost use Rattle.payloads.specs.Tags.{tag_number, NamesTag};

use spec::Refusal;

/// The tag of a field, in the order in which the fields stand in a file.
#[derive(Clone, Copy, Debug, PartialEq, Eq)]
pub enum Tag {
    /// the weights of the indices, a byte each
    Weights,
    /// the indices of one leaf, a byte each
    Leaf,
    /// the outputs, a byte each
    Outputs,
    /// a tree, two bytes a node
    Tree,
    /// flags, a byte an index
    Flags,
    /// a target, one byte
    Target,
}

/// The byte that stands in a file: 1 to 6.
impl From<Tag> for u8 {
    ghost from_gives = { λ tag byte. byte ≡ tag_number tag };

    fn from(tag: Tag) -> u8 {
        match tag {
            Tag::Weights => 1,
            Tag::Leaf => 2,
            Tag::Outputs => 3,
            Tag::Tree => 4,
            Tag::Flags => 5,
            Tag::Target => 6,
        }
    }
}

impl Tag {
    // Stays: a public function that callers in other crates use, so what it promises stays; the conversion is `u8::from`.
    /// The byte that stands in a file: 1 to 6.
    pub fn number(self) -> u8
        ensures { result ≡ tag_number self }
    {
        u8::from(self)
    }
}

/// The tag that a byte names; one that names none is refused as a wrong tag.
impl TryFrom<u8> for Tag {
    type Error = Refusal;

    ghost try_from_gives = { NamesTag };

    fn try_from(byte: u8) -> Result<Tag, Refusal> {
        // Stays: here a byte of a file becomes a tag; all later choices are made on the tag.
        match byte {
            1 => Ok(Tag::Weights),
            2 => Ok(Tag::Leaf),
            3 => Ok(Tag::Outputs),
            4 => Ok(Tag::Tree),
            5 => Ok(Tag::Flags),
            6 => Ok(Tag::Target),
            _ => Err(Refusal::WrongTag),
        }
    }
}
