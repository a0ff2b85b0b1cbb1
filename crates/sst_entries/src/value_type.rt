//! Kinds of entries.
ghost use Rattle.std.specs.Prelude.{◌≡◌};
ghost use Rattle.sst_entries.specs.Words as spec;

/// The kind of an entry.
///
/// The discriminants are the tags that blocks store.
#[derive(Clone, Copy, Debug, PartialEq, Eq, PartialOrd, Ord, Hash)]
pub enum ValueType {
    /// A value.
    Value = 0,
    /// A deletion of every older version of the key.
    Tombstone = 1,
    /// A deletion of only the next older version of the key.
    WeakTombstone = 2,
    /// A pointer to a value that is stored elsewhere.
    Indirection = 4,
}

impl ValueType {
    /// Returns the tag that blocks store for the kind.
    pub fn tag(self) -> u8
        ensures { result ≡ spec.tag_of self }
    {
        self as u8
    }

    /// Returns the kind of a tag, or `None` if the byte is no tag.
    pub fn from_tag(tag: u8) -> Option<ValueType>
        ensures { result ≡ spec.kind_of tag }
    {
        match tag {
            0 => Some(ValueType::Value),
            1 => Some(ValueType::Tombstone),
            2 => Some(ValueType::WeakTombstone),
            4 => Some(ValueType::Indirection),
            _ => None,
        }
    }

    /// Returns whether the kind is a tombstone, weak or not.
    pub fn is_tombstone(self) -> bool
        ensures { result ≡ spec.is_tombstone_kind self }
    {
        matches!(self, ValueType::Tombstone | ValueType::WeakTombstone)
    }
}
