//! The framing of HTTP/1.1 messages (RFC 9112) over bytes that are there.
#![tactic(auto)]

ghost use Rattle.std.specs.Prelude.{◌≡◌, ◌≤◌, length, take, drop};

mod calm;
mod chunks;
mod faults;
mod faulty;
mod fields;
mod frames;
mod heads;
mod laws;
mod plain;
mod reader;
mod replies;
mod staying;
mod turns;
mod writing;

pub use crate::faults::fault_text;
pub use crate::faulty::refused_heads_stay;
pub use crate::frames::{
    Body, Four, Frame, FrameLimits, Head, LIMITS, Parts, Step, expects_continue, next_request,
};
pub use crate::laws::{
    fixed_limits, one_answer, one_head, one_reading, read_is_writable, stays, written_is_read,
};
pub use crate::plain::{PlainFrame, plain_request};
pub use crate::reader::{FrameReader, ReaderStep};
pub use crate::replies::{NodeReply, RStep, next_response};
pub use crate::staying::stays_open;
pub use crate::writing::{
    CONTINUE, NodeRequest, ReplyHeaders, write_open_request, write_request, write_response,
};

/// Why a request is refused (RFC 9112). Where several hold, the answer is the first of `BadHead`,
/// `HeadTooLong`, `OtherCoding`, `BothLengths`, `BadLength`, `BodyTooLong` and `BadChunk`.
#[derive(Clone, Copy, Debug, PartialEq, Eq)]
pub enum FrameFault {
    /// No request head can come of the bytes (sections 3 and 5), or none of at most 100 headers.
    BadHead,
    /// The head isn't whole within its limit.
    HeadTooLong,
    /// A `Content-Length` isn't a number, or two of them differ (section 6.2).
    BadLength,
    /// A `Transfer-Encoding` and a `Content-Length` stand there (section 6.1).
    BothLengths,
    /// A chunk line is malformed or over 4,096 bytes, data isn't followed by CR LF, or the trailers
    /// are malformed, over 65,536 bytes or over 100 (section 7.1).
    BadChunk,
    /// The length, or the sizes of the chunks so far, are over the limit of a body.
    BodyTooLong,
    /// The transfer coding isn't `chunked` alone and once (section 6.1).
    OtherCoding,
}

/// The first `limit` bytes, or all where there are fewer.
fn front(text: &[u8], limit: usize) -> &[u8]
    ensures { result.now ≡ take limit text.now }
{
    if text.len() < limit {
        text
    } else {
        &text[..limit]
    }
}

/// The bytes from `at` on.
fn behind(text: &[u8], at: usize) -> &[u8]
    requires { at ≤ length text.now }
    ensures { result.now ≡ drop at text.now }
{
    &text[at..]
}
