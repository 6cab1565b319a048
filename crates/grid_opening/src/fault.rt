//! Why an opening does not go on.

/// Why an opening does not go on. Where it ends so, the journal holds what was put behind it, and another opening goes on from
/// there.
#[derive(Clone, Copy, Debug, PartialEq, Eq)]
pub enum OpeningFault {
    /// An entry was not kept, or only a part of it.
    Unkept,
    /// There was no memory.
    Memory,
    /// An entry could not be read again, since its moment is past the last one that there is.
    Late,
    /// A caller has the greatest number that there is, so that none is left for a pass.
    Numbers,
}

/// Nothing was handed over, and what keeps the journal comes back.
#[derive(Drop)]
pub struct Unsettled<K: Drop> {
    pub fault: OpeningFault,
    pub keeper: K,
}
