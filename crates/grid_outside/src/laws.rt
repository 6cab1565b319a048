//! What the limits are, as the contract of a function that does nothing.
ghost use Rattle.std.specs.Prelude.{◌≡◌};
ghost use Rattle.grid_outside.specs.declared.exchange.TheConstants.{FIRST_STATUS, KEPT_BYTES, LAST_STATUS};
ghost use Rattle.grid_outside.specs.declared.source.TheConstants.{PIECE_BYTES};

/// The number behind each name of a limit, since definitions cite the names: bytes of a piece, bytes that are kept of what
/// is no reply, and the statuses of a reply (RFC 9110 §15).
pub fn fixed_limits()
    ensures piece { PIECE_BYTES ≡ 65536 }
    ensures kept { KEPT_BYTES ≡ 1024 }
    ensures first { FIRST_STATUS ≡ 200 }
    ensures last { LAST_STATUS ≡ 999 }
{}
