//! Ids of tables and trees.
ghost use Rattle.std.specs.Prelude.{◌≡◌};

/// The id of a table within its tree.
pub type TableId = u64;

/// The id of a tree.
pub type TreeId = u64;

/// The id of a table among the tables of all trees.
///
/// Ids are ordered by the tree, then by the table.
#[derive(Clone, Copy, Debug, PartialEq, Eq, PartialOrd, Ord, Hash)]
pub struct GlobalTableId(TreeId, TableId);

impl GlobalTableId {
    /// Returns the id of the tree.
    pub fn tree_id(&self) -> TreeId
        ensures { result ≡ self.now.0 }
    {
        self.0
    }

    /// Returns the id of the table within its tree.
    pub fn table_id(&self) -> TableId
        ensures { result ≡ self.now.1 }
    {
        self.1
    }
}

impl From<(TreeId, TableId)> for GlobalTableId {
    ghost use Rattle.std.specs.Prelude.{◌≡◌};

    ghost from_gives = { λ parts id. id ≡ record { 0 = parts.0; 1 = parts.1 } };

    fn from((tree_id, table_id): (TreeId, TableId)) -> GlobalTableId {
        GlobalTableId(tree_id, table_id)
    }
}
