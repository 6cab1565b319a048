//! What a client is told of a refused request.
ghost use Rattle.std.specs.Prelude.{◌≡◌};
ghost use Rattle.http_frames.specs.Faults.{fault_text};

use crate::FrameFault;

/// The message of the error with which a request is refused.
pub fn fault_text(why: FrameFault) -> &'static str
    ensures { result.now ≡ fault_text why }
{
    match why {
        FrameFault::BadHead => "bad request: head",
        FrameFault::HeadTooLong => "bad request: head too long",
        FrameFault::BadLength => "bad request: length",
        FrameFault::BothLengths => "bad request: both lengths",
        FrameFault::BadChunk => "bad request: chunk",
        FrameFault::BodyTooLong => "bad request: body too long",
        FrameFault::OtherCoding => "bad request: coding",
    }
}
