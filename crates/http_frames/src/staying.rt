//! Whether a connection to a node stays open behind a reply (RFC 9112, section 9.3).
ghost use Rattle.std.specs.Prelude.{◌≡◌, ℕ, List, Bool, false, length};
ghost use Rattle.httparse.specs.Grammar.{ResponseHead};
ghost use Rattle.http_frames.specs.FieldSteps.{AreWithin, pairs_of};
ghost use Rattle.http_frames.specs.Replies.{HasReplyHead};
ghost use Rattle.http_frames.specs.Staying.{is_bounded, stays_behind, stays_open};

use crate::fields::closes;
use crate::frames::FrameLimits;
use crate::front;
use crate::replies::{ReplyFraming, ReplyHeadStep, framing_of_reply, is_interim, read_reply_head};
use httparse::spans::{EMPTY_HEADER_SPAN, HeaderSpan, ResponseSpans};

/// Whether the connection to a node stays open behind the reply whose head the bytes begin with: it is one of HTTP/1.1, says
/// no `Connection: close`, and its body ends by a length, by chunks or by its status (RFC 9112, sections 6.3 and 9.3). Not
/// where an interim response or no whole head stands there.
pub fn stays_open(text: &[u8], limits: FrameLimits) -> bool
    ensures told { (h : ResponseHead) (rest : List ℕ) → HasReplyHead limits text.now h rest →
        result ≡ stays_open limits h }
    ensures none { ((h : ResponseHead) (rest : List ℕ) → ¬ (HasReplyHead limits text.now h rest)) →
        result ≡ false }
{
    let mut headers = [EMPTY_HEADER_SPAN; 100];
    let there = front(text, limits.head as usize);
    match read_reply_head(there, &mut headers) {
        ReplyHeadStep::Open => false,
        ReplyHeadStep::Bad => false,
        ReplyHeadStep::Whole(spans) => {
            stays_behind(there, &headers[..spans.headers], &spans, limits)
        }
    }
}

/// Whether it stays open behind the reply of this head.
fn stays_behind(
    there: &[u8],
    fields: &[HeaderSpan],
    spans: &ResponseSpans,
    limits: FrameLimits,
) -> bool
    requires { AreWithin (length there.now) fields.now }
    ensures { result ≡ stays_behind limits spans.now.version spans.now.code
        (pairs_of there.now fields.now) }
{
    !is_interim(spans.code)
        && !closes(there, fields, spans.version)
        && is_bounded(framing_of_reply(there, fields, spans.code, limits.body))
}

/// Whether the end of the body is known before the end of input.
fn is_bounded(framing: ReplyFraming) -> bool
    ensures { result ≡ is_bounded framing }
{
    match framing {
        ReplyFraming::Faulty => false,
        ReplyFraming::Sized(_) => true,
        ReplyFraming::Chunked => true,
        ReplyFraming::Until => false,
    }
}
