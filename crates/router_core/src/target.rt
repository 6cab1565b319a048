//! A request's target, and its path.
ghost use Rattle.std.specs.Prelude.{◌≡◌};
ghost use Rattle.router_core.specs.Patterns.{up_to as up_to_first, from_first};
ghost use Rattle.router_core.specs.Targets.{own_target as own_target_of, without_host as without_host_of, without_prefix as without_prefix_of, path_or_root, path_of as path_in};

/// The target that is looked at and passed on.
pub(crate) fn own_target(target: &[u8]) -> &[u8]
    ensures { result.now ≡ own_target_of target.now }
{
    without_prefix(without_host(target))
}

/// An absolute target without its scheme and its authority (RFC 9112 §3.2.2).
fn without_host(target: &[u8]) -> &[u8]
    ensures { result.now ≡ without_host_of target.now }
{
    match target.strip_prefix(b"http://") {
        Some(behind) => root_or(from_slash(behind)),
        None => target,
    }
}

/// The path, or the root where it is empty.
fn root_or(path: &[u8]) -> &[u8]
    ensures { result.now ≡ path_or_root path.now }
{
    if path.is_empty() { b"/" } else { path }
}

/// The prefix under which older clients know the hub is left out, once.
fn without_prefix(target: &[u8]) -> &[u8]
    ensures { result.now ≡ without_prefix_of target.now }
{
    if target.starts_with(b"/wd/hub/") {
        &target[7..]
    } else {
        target
    }
}

/// The target without its query.
pub(crate) fn path_of(target: &[u8]) -> &[u8]
    ensures { result.now ≡ path_in target.now }
{
    up_to(target, b'?')
}

/// The text up to the first of these bytes, or all of it.
pub(crate) fn up_to(text: &[u8], stop: u8) -> &[u8]
    ensures { result.now ≡ up_to_first stop text.now }
{
    for (index, byte) in text.iter().enumerate() {
        if *byte == stop {
            return &text[..index];
        }
    }
    text
}

/// The path from its first slash on.
fn from_slash(path: &[u8]) -> &[u8]
    ensures { result.now ≡ from_first 47 path.now }
{
    for (index, byte) in path.iter().enumerate() {
        if *byte == b'/' {
            return &path[index..];
        }
    }
    &[]
}
