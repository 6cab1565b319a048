//! What the limits are, as the contract of a function that does nothing.
ghost use Rattle.std.specs.Prelude.{◌≡◌, ◌^◌};
ghost use Rattle.loop_node.specs.declared.incoming.TheConstants.{MOST_BYTES};
ghost use Rattle.loop_node.specs.declared.reading.TheConstants.{MAX_URL_JSON};

/// The number behind each name of a limit, since definitions cite the names: bytes of a connection, and of a url as JSON.
pub fn fixed_limits()
    ensures read { MOST_BYTES ≡ 2 ^ 40 }
    ensures url { MAX_URL_JSON ≡ 16777206 }
{}
