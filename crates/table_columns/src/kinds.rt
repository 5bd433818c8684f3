/// The kinds of fault of a name.
#[derive(Clone, Copy)]
pub struct NameKinds<K> {
    /// The text is no name.
    pub name: K,
    /// An earlier record has the name.
    pub twice: K,
}

/// The kinds of fault of a number.
#[derive(Clone, Copy)]
pub struct NumberKinds<K> {
    /// The text is no number with the places of its column.
    pub number: K,
    /// The number is outside the bounds of its column.
    pub range: K,
}
