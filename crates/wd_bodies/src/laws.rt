//! The laws that bodies are read again as JSON (RFC 8259), and what the fixed texts are, each as the contract of a
//! function that does nothing.
ghost use Rattle.std.specs.Prelude.{◌≡◌, codes};
ghost use Rattle.wd_bodies.specs.declared.headers.TheConstants.{JSON_TYPE, NO_CACHE};
ghost use Rattle.wd_bodies.specs.declared.messages.TheConstants.{HUB_SPENT, NODE_NOT_HTTP, NODE_UNREACHABLE, NO_COMMAND, NO_METHOD, NO_NODE, NO_SESSION, NO_SLOT_MATCHES, NUMBERS_SPENT};
ghost use Rattle.wd_bodies.specs.declared.paths.TheConstants.{BEFORE_NODE, BEFORE_SESSION, NODES, SESSIONS, STATUS};
ghost use Rattle.wd_bodies.specs.ReadAgain.{CapabilitiesAreReadAgain, CreatedAreReadAgain, ErrorsAreReadAgain, StartsAreReadAgain, ValuesAreReadAgain};

/// A body around a JSON text is JSON with that text's value.
pub fn values_are_read_again()
    ensures { ValuesAreReadAgain }
{}

/// An error's body is JSON with its code and its message.
pub fn errors_are_read_again()
    ensures { ErrorsAreReadAgain }
{}

/// Written capabilities are JSON with their members in order, where each raw value is JSON.
pub fn capabilities_are_read_again()
    ensures { CapabilitiesAreReadAgain }
{}

/// The body for a session that was created is JSON with its id and its capabilities.
pub fn created_are_read_again()
    ensures { CreatedAreReadAgain }
{}

/// The body of a request for a session is JSON with the capabilities that are wanted, those for the hub alone left out.
pub fn starts_are_read_again()
    ensures { StartsAreReadAgain }
{}

/// The letters behind each name of a message, since definitions cite the names.
pub fn fixed_messages()
    ensures no_command { NO_COMMAND.now ≡ codes "no command has this path" }
    ensures no_method { NO_METHOD.now ≡ codes "this path has no such method" }
    ensures no_session { NO_SESSION.now ≡ codes "no such session" }
    ensures no_node { NO_NODE.now ≡ codes "no registered node has this number" }
    ensures numbers_spent { NUMBERS_SPENT.now ≡ codes "numbers are spent" }
    ensures no_slot_matches { NO_SLOT_MATCHES.now ≡ codes "no registered slot matches" }
    ensures hub_spent { HUB_SPENT.now ≡ codes "hub is spent" }
    ensures node_unreachable { NODE_UNREACHABLE.now ≡ codes "node is unreachable" }
    ensures node_not_http { NODE_NOT_HTTP.now ≡ codes "node's reply is not HTTP" }
{}

/// The letters behind each name of a path, since definitions cite the names.
pub fn fixed_paths()
    ensures sessions { SESSIONS.now ≡ codes "/session" }
    ensures before_session { BEFORE_SESSION.now ≡ codes "/session/" }
    ensures status { STATUS.now ≡ codes "/status" }
    ensures nodes { NODES.now ≡ codes "/se/grid/distributor/node" }
    ensures before_node { BEFORE_NODE.now ≡ codes "/se/grid/distributor/node/" }
{}

/// The letters behind each name of a header's value, since definitions cite the names.
pub fn fixed_headers()
    ensures json_type { JSON_TYPE.now ≡ codes "application/json; charset=utf-8" }
    ensures no_cache { NO_CACHE.now ≡ codes "no-cache" }
{}
