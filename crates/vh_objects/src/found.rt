use vh_base::Object;

/// What a relation to one object leads to.
#[derive(Clone, Copy, Debug, PartialEq, Eq)]
pub enum Found {
    Object(Object),
    /// Null: the relation leads from this kind, but to nothing from this object.
    None,
    /// No such relation leads from this kind.
    NoRelation,
}
