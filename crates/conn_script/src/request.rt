//! The request under way.
use http_frames::Head;

/// A whole request. Its slices lie in the connection's memory.
#[derive(Clone, Copy)]
pub struct Whole<'a> {
    pub method: &'a [u8],
    pub target: &'a [u8],
    pub head: Head<'a>,
    /// The body, its chunks joined.
    pub body: &'a [u8],
}
