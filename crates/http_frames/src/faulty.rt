//! What a fault in the bytes says of the head at their front. The function does nothing: its contract is a law.
ghost use Rattle.std.specs.Prelude.{◌++◌, ℕ, List};
ghost use Rattle.httparse.specs.Grammar.{RequestHead};
ghost use Rattle.http_frames.specs.declared.FrameFault.{FrameFault};
ghost use Rattle.http_frames.specs.declared.frames.FrameLimits.{FrameLimits};
ghost use Rattle.http_frames.specs.Frames.{IsAccepted, IsRefused};

/// Behind a fault no further head is accepted: where bytes are refused, a head that is accepted with more bytes behind them is accepted
/// without these. So a head that was refused is never accepted later.
pub fn refused_heads_stay()
    ensures { (limits : FrameLimits) (buf : List ℕ) (more : List ℕ) (why : FrameFault) (h : RequestHead)
        → IsRefused limits buf why → IsAccepted limits (buf ++ more) h → IsAccepted limits buf h }
{}
