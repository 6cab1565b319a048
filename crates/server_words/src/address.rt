//! The address of a hub or a driver, as it may be written.
ghost use Rattle.std.specs.Prelude.{◌≡◌, ◌==◌, ◌-◌, ◌≤◌, IfNone, IfSome, false, option_map, true};
ghost use Rattle.std.specs.List.{list_any};
ghost use Rattle.server_words.specs.Addresses.{bare_address, behind, ends_in_slash, has_port, is_host_and_port, is_port, is_reachable, port_number, port_text, without_scheme, without_slash};

use grid_types::{NodeAddress, are_digits};

/// What may stand in front of an address.
const SCHEME: &[u8] = b"http://";

/// What stands behind the front, where the text begins with it.
fn behind<'a>(front: &[u8], text: &'a [u8]) -> Option<&'a [u8]>
    ensures { option_map (λ s. s.now) result ≡ behind front.now text.entry.now }
{
    match front {
        [] => Some(text),
        [first, others @ ..] => match text {
            [byte, rest @ ..] if byte == first => behind(others, rest),
            _ => None,
        },
    }
}

fn without_scheme(text: &[u8]) -> &[u8]
    ensures { result.now ≡ without_scheme text.now }
{
    match behind(SCHEME, text) {
        Some(rest) => rest,
        None => text,
    }
}

fn ends_in_slash(text: &[u8]) -> bool
    ensures { result ≡ ends_in_slash text.now }
{
    match text.last() {
        Some(last) => *last == b'/',
        None => false,
    }
}

fn without_slash(text: &[u8]) -> &[u8]
    ensures { result.now ≡ without_slash text.now }
{
    if ends_in_slash(text) {
        &text[..text.len() - 1]
    } else {
        text
    }
}

/// What stands behind the last colon.
fn port_text(text: &[u8]) -> Option<&[u8]>
    ensures { option_map (λ s. s.now) result ≡ port_text text.now }
{
    match text {
        [] => None,
        [byte, rest @ ..] => match port_text(rest) {
            Some(port) => Some(port),
            None => if *byte == b':' { Some(rest) } else { None },
        },
    }
}

/// What a digit writes.
fn digit(byte: u8) -> u32
    ensures value { result ≡ byte - 48 }
    ensures few { result ≤ 207 }
{
    u32::from(byte.saturating_sub(b'0'))
}

/// What one to five digits write; 0 where there are others than so many.
fn port_number(text: &[u8]) -> u32
    ensures { result ≡ port_number text.now }
{
    match text {
        [a] => digit(*a),
        [a, b] => digit(*a) * 10 + digit(*b),
        [a, b, c] => (digit(*a) * 10 + digit(*b)) * 10 + digit(*c),
        [a, b, c, d] => ((digit(*a) * 10 + digit(*b)) * 10 + digit(*c)) * 10 + digit(*d),
        [a, b, c, d, e] => {
            (((digit(*a) * 10 + digit(*b)) * 10 + digit(*c)) * 10 + digit(*d)) * 10 + digit(*e)
        }
        _ => 0,
    }
}

/// The digits of a port of TCP, 1 to 65535.
fn is_port(text: &[u8]) -> bool
    ensures { result ≡ is_port text.now }
{
    let number = port_number(text);
    are_digits(text) && 1 <= number && number <= 65_535
}

fn has_slash(text: &[u8]) -> bool
    ensures { result ≡ list_any (λ b. b == 47) text.now }
{
    text.iter().any(|b| *b == b'/')
}

fn has_port(text: &[u8]) -> bool
    ensures { result ≡ has_port text.now (port_text text.now) }
{
    match port_text(text) {
        Some(port) => is_port(port) && port.len() + 1 < text.len(),
        None => false,
    }
}

/// HOST:PORT, without a slash.
fn is_host_and_port(text: &[u8]) -> bool
    ensures { result ≡ is_host_and_port text.now }
{
    has_port(text) && !has_slash(text)
}

/// The address that the text writes: `HOST:PORT`, which may have `http://` in front and `/` behind. None where that is no
/// address of a node, or has no port.
pub fn address_in(text: &str) -> Option<NodeAddress>
    ensures some { IfSome result (λ a. a ≡ bare_address text.now) }
    ensures taken { IfSome result (λ a. is_reachable (bare_address text.now) ≡ true) }
    ensures none { IfNone result (is_reachable (bare_address text.now) ≡ false) }
{
    let bare = without_slash(without_scheme(text.as_bytes()));
    match NodeAddress::from_bytes(bare) {
        Some(address) => if is_host_and_port(bare) {
            Some(address)
        } else {
            None
        },
        None => None,
    }
}
