//! Laws about the framing that its users stand on. The functions do nothing: each contract is a law.
ghost use Rattle.std.specs.Prelude.{◌≡◌, ◌≢◌, ◌<◌, ◌++◌, ℕ, false, length, List, Bool, [], ◌∷◌, Option, All, codes};
ghost use Rattle.std.specs.Borrow.{Bor};
ghost use Rattle.httparse.specs.Grammar.{RequestHead, IsRequestHead, ResponseHead, IsResponseHead, reason_phrase};
ghost use Rattle.http_frames.specs.declared.FrameFault.{FrameFault};
ghost use Rattle.http_frames.specs.declared.frames.FrameLimits.{FrameLimits};
ghost use Rattle.http_frames.specs.declared.frames.Step.{Step};
ghost use Rattle.http_frames.specs.declared.reader.ReaderStep.{ReaderStep};
ghost use Rattle.http_frames.specs.declared.chunks.TheConstants.{MAX_CHUNK_LINE, MAX_TRAILERS};
ghost use Rattle.http_frames.specs.declared.frames.TheConstants.{LIMITS};
ghost use Rattle.http_frames.specs.declared.writing.TheConstants.{CONTINUE};
ghost use Rattle.http_frames.specs.FrameSteps.{IsToldExactly};
ghost use Rattle.http_frames.specs.Feeding.{IsReaderStep, IsAlike};
ghost use Rattle.http_frames.specs.Fields.{headers_of, values_of};
ghost use Rattle.http_frames.specs.Frames.{Spells, IsRefused, IsAccepted, IsAwaited, IsWhole, Request, End, Frames};
ghost use Rattle.http_frames.specs.Replies.{reply_headers, IsReply};
ghost use Rattle.http_frames.specs.Writing.{response_bytes, request_bytes, open_request_bytes};
ghost use Rattle.http_frames.specs.Written.{IsPhrase, IsValue, IsSendable, IsSendableRequest, IsReadResponse, IsReadRequest, IsReadOpenRequest};

/// The bytes of a connection spell one list of requests, and end in one way. No spelling of a
/// request is the beginning of another.
pub fn one_reading()
    ensures spelling { (bytes : List ℕ) (more : List ℕ) (h : RequestHead) (k : RequestHead) (parts : List (List ℕ)) (qs : List (List ℕ))
        → Spells bytes h parts → Spells (bytes ++ more) k qs → (more ≡ []) × (h ≡ k) × (parts ≡ qs) }
    ensures connection { (limits : FrameLimits) (bytes : List ℕ) (fs : List Request) (gs : List Request) (d : End) (e : End)
        → Frames limits bytes fs d → Frames limits bytes gs e → (fs ≡ gs) × (d ≡ e) }
{}

/// What is whole stays whole, and what is refused stays refused, whatever bytes follow. So it does
/// not matter in which pieces the bytes come.
pub fn stays()
    ensures whole { (limits : FrameLimits) (buf : List ℕ) (more : List ℕ) (h : RequestHead) (parts : List (List ℕ)) (behind : List ℕ)
        → IsWhole limits buf h parts behind → IsWhole limits (buf ++ more) h parts (behind ++ more) }
    ensures refused { (limits : FrameLimits) (buf : List ℕ) (more : List ℕ) (why : FrameFault)
        → IsRefused limits buf why → IsRefused limits (buf ++ more) why }
    ensures some { (limits : FrameLimits) (buf : List ℕ) (h : RequestHead) (parts : List (List ℕ)) (behind : List ℕ)
        → IsWhole limits buf h parts behind → length behind < length buf }
{}

/// An accepted head stays accepted, whatever bytes follow, and it is the only one. In no bytes there
/// is none and no fault, and more bytes are awaited.
pub fn one_head()
    ensures stays { (limits : FrameLimits) (buf : List ℕ) (more : List ℕ) (h : RequestHead)
        → IsAccepted limits buf h → IsAccepted limits (buf ++ more) h }
    ensures one { (limits : FrameLimits) (buf : List ℕ) (h : RequestHead) (k : RequestHead)
        → IsAccepted limits buf h → IsAccepted limits buf k → h ≡ k }
    ensures none { (limits : FrameLimits) (h : RequestHead) → ¬ (IsAccepted limits [] h) }
    ensures nothing { (limits : FrameLimits) → 0 < limits.head → IsAwaited limits [] false }
    ensures fault { (limits : FrameLimits) (buf : List ℕ) (why : FrameFault) → 0 < limits.head →
        IsRefused limits buf why → buf ≢ [] }
{}

/// A reader that was fed some bytes answers as `next_request` does on them, but that its body is one part.
pub fn one_answer()
    ensures { (limits : FrameLimits) (bytes : List ℕ) (r : ReaderStep) (s : Step)
        → IsReaderStep limits bytes r → IsToldExactly limits bytes s → IsAlike bytes r s }
{}

/// What `write_response`, `write_request` and `write_open_request` write is read again as the same, whatever bytes follow
/// it, where the parts are such as a message can have and the limits are kept.
pub fn written_is_read()
    ensures response { (limits : FrameLimits) (status : ℕ) (reason : List ℕ)
        (content_type : Option (Bor (List ℕ))) (content_encoding : Option (Bor (List ℕ))) (cache_control : Option (Bor (List ℕ)))
        (body : List ℕ) (close : Bool) (ended : Bool) (behind : List ℕ)
        → IsSendable limits status reason content_type content_encoding cache_control body close
        → (h : ResponseHead)
        × IsReply limits (response_bytes status reason content_type content_encoding cache_control body close ++ behind) ended h body behind
        × IsReadResponse h (reply_headers h) status reason content_type content_encoding cache_control }
    ensures request { (limits : FrameLimits) (address : List ℕ) (method : List ℕ) (target : List ℕ)
        (accept : Option (Bor (List ℕ))) (accept_encoding : Option (Bor (List ℕ)))
        (content_type : Option (Bor (List ℕ))) (content_encoding : Option (Bor (List ℕ)))
        (body : List ℕ) (behind : List ℕ)
        → IsSendableRequest limits address method target accept accept_encoding content_type content_encoding body
        → (h : RequestHead)
        × IsWhole limits (request_bytes address method target accept accept_encoding content_type content_encoding body ++ behind) h (body ∷ []) behind
        × IsReadRequest h address method target accept accept_encoding content_type content_encoding }
    ensures open_request { (limits : FrameLimits) (address : List ℕ) (method : List ℕ) (target : List ℕ)
        (accept : Option (Bor (List ℕ))) (accept_encoding : Option (Bor (List ℕ)))
        (content_type : Option (Bor (List ℕ))) (content_encoding : Option (Bor (List ℕ)))
        (body : List ℕ) (behind : List ℕ)
        → IsSendableRequest limits address method target accept accept_encoding content_type content_encoding body
        → (h : RequestHead)
        × IsWhole limits (open_request_bytes address method target accept accept_encoding content_type content_encoding body ++ behind) h (body ∷ []) behind
        × IsReadOpenRequest h address method target accept accept_encoding content_type content_encoding }
{}

/// The reason and the values of a message that was read may be written.
pub fn read_is_writable()
    ensures request { (h : RequestHead) (name : List ℕ) → IsRequestHead h →
        All IsValue (values_of name (headers_of h)) }
    ensures response { (h : ResponseHead) (name : List ℕ) → IsResponseHead h →
        All IsValue (values_of name (reply_headers h)) }
    ensures reason { (h : ResponseHead) → IsResponseHead h → IsPhrase (reason_phrase h.reason) }
{}

/// The numbers behind the names of limits and the bytes of the interim response (RFC 9110, section 15.2.1), since
/// definitions cite the names.
pub fn fixed_limits()
    ensures head { LIMITS.head ≡ 65536 }
    ensures body { LIMITS.body ≡ 16777216 }
    ensures chunk_line { MAX_CHUNK_LINE ≡ 4096 }
    ensures trailers { MAX_TRAILERS ≡ 65536 }
    ensures interim { CONTINUE.now ≡ codes "HTTP/1.1 100 Continue\r\n\r\n" }
{}
