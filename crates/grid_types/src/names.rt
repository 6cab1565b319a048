//! Moments, and the names of nodes, requests, slots and sessions.
ghost use Rattle.std.specs.Prelude.{◌≡◌, ◌≤◌, List, ℕ, IfSome, is_some, IsTrue, IsUtf8, length, replicate};
ghost use Rattle.grid_types.specs.Padded.{padded};
ghost use Rattle.std.specs.List.{list_all};
ghost use Rattle.grid_types.specs.Names.{is_session_byte, is_session_name, is_address_byte, is_node_address, is_node_name_byte, IsCutAt};

use std::marker::Model;
use std::str::from_utf8;

/// A time in milliseconds, from a start that the clock chose.
///
/// Any `u64` is taken at a call. A deadline is at most 2^62 - 1.
#[derive(Clone, Copy, Debug, PartialEq, Eq, PartialOrd, Ord)]
pub struct Moment(pub u64);

/// The number of a registration. A node that registers again gets a new one.
pub type NodeNo = u32;

/// The number of a request, and of the session that is created for it.
pub type ReqNo = u64;

/// One slot: a node's number, and the slot's place in it from 0.
#[derive(Clone, Copy, Debug, PartialEq, Eq, PartialOrd, Ord)]
pub struct SlotId {
    pub node: NodeNo,
    /// The slot's place among those of the node, from 0.
    pub index: u16,
}

/// Copies the bytes to the front of what is all zeros.
fn fill(content: &mut [u8], bytes: &[u8])
    requires room { length bytes.now ≤ length content.old }
    requires zeros { content.old ≡ replicate (length content.old) 0 }
    ensures { content.new ≡ padded (length content.old) bytes.now }
{
    for (i, b) in bytes.iter().enumerate() {
        content[i] = *b;
    }
}

/// Whether the bytes are such as the id of a session has: letters, digits, `-` and `_`.
pub fn are_session_bytes(bytes: &[u8]) -> bool
    ensures { result ≡ list_all is_session_byte bytes.now }
{
    bytes
        .iter()
        .all(|b| b.is_ascii_alphanumeric() || *b == b'-' || *b == b'_')
}

/// Whether the bytes are such as the address of a node has: from `!` to `~`.
pub fn are_address_bytes(bytes: &[u8]) -> bool
    ensures { result ≡ list_all is_address_byte bytes.now }
{
    bytes.iter().all(|b| *b >= b'!' && *b <= b'~')
}

/// Whether the bytes are such as the name of a node has: letters, digits, `-`, `_` and `.`.
pub fn are_node_name_bytes(bytes: &[u8]) -> bool
    ensures { result ≡ list_all is_node_name_byte bytes.now }
{
    bytes.iter().all(|b| b.is_ascii_alphanumeric() || *b == b'-' || *b == b'_' || *b == b'.')
}

/// A session's id: 1 to 128 letters, digits, '-' and '_', seen as the list of its bytes.
#[derive(Clone, Copy, Debug, PartialEq, Eq, Hash)]
pub struct SessionId {
    content: [u8; 128],
    len: usize,
}

impl Model for SessionId {
    ghost use Rattle.std.specs.Prelude.{ℕ, List, take, length, ◌≡◌, true, refl};
    ghost use Rattle.grid_types.specs.Padded.{IsPadded, padded};
    ghost use Rattle.grid_types.specs.Names.{is_session_name};
    ghost use Rattle.grid_types.specs.Padded.{length-kept, padded-kept};

    ghost Value = { List ℕ };

    ghost view = { λ s. take s.len s.content };

    ghost invariant = { λ s. IsPadded 128 s.content s.len × (is_session_name (take s.len s.content) ≡ true) };

    ghost inverse = { λ l. record { content = padded 128 l; len = length l } };

    ghost inverse_ok = { λ a h. Prim.rw (padded-kept 128 a.content a.len h.0, length-kept 128 a.content a.len h.0) refl };
}

impl SessionId {
    /// The id of these bytes, or None exactly where they are no session id. It takes no memory.
    pub fn from_bytes(bytes: &[u8]) -> Option<SessionId>
        ensures variant { is_some result ≡ is_session_name bytes.now }
        ensures value { IfSome result (λ s. s ≡ bytes.now) }
    {
        if bytes.is_empty() || bytes.len() > 128 || !are_session_bytes(bytes) {
            return None;
        }
        let mut content = [0; 128];
        fill(&mut content, bytes);
        Some(SessionId {
            content,
            len: bytes.len(),
        })
    }

    /// The bytes that it was made from.
    pub fn as_bytes(&self) -> &[u8]
        ensures bytes { result.now ≡ self.now }
        ensures rule { IsTrue (is_session_name self.now) }
    {
        &self.content[..self.len]
    }

    /// The id as text. It takes no memory.
    pub fn as_str(&self) -> &str
        ensures { result.now ≡ self.now }
    {
        match from_utf8(self.as_bytes()) {
            Ok(id) => id,
            Err(_) => unreachable!(),
        }
    }
}

/// A node's address, a host and a port: 1 to 255 bytes from '!' to '~', seen as their list.
#[derive(Clone, Copy, Debug, PartialEq, Eq)]
pub struct NodeAddress {
    content: [u8; 255],
    len: usize,
}

impl Model for NodeAddress {
    ghost use Rattle.std.specs.Prelude.{ℕ, List, take, length, ◌≡◌, true, refl};
    ghost use Rattle.grid_types.specs.Padded.{IsPadded, padded};
    ghost use Rattle.grid_types.specs.Names.{is_node_address};
    ghost use Rattle.grid_types.specs.Padded.{length-kept, padded-kept};

    ghost Value = { List ℕ };

    ghost view = { λ a. take a.len a.content };

    ghost invariant = { λ a. IsPadded 255 a.content a.len × (is_node_address (take a.len a.content) ≡ true) };

    ghost inverse = { λ l. record { content = padded 255 l; len = length l } };

    ghost inverse_ok = { λ a h. Prim.rw (padded-kept 255 a.content a.len h.0, length-kept 255 a.content a.len h.0) refl };
}

impl NodeAddress {
    /// The address of these bytes, or None exactly where they are none. That a node is reached there is not checked. It takes no memory.
    pub fn from_bytes(bytes: &[u8]) -> Option<NodeAddress>
        ensures variant { is_some result ≡ is_node_address bytes.now }
        ensures value { IfSome result (λ a. a ≡ bytes.now) }
    {
        if bytes.is_empty() || bytes.len() > 255 || !are_address_bytes(bytes) {
            return None;
        }
        let mut content = [0; 255];
        fill(&mut content, bytes);
        Some(NodeAddress {
            content,
            len: bytes.len(),
        })
    }

    /// The bytes that it was made from.
    pub fn as_bytes(&self) -> &[u8]
        ensures bytes { result.now ≡ self.now }
        ensures rule { IsTrue (is_node_address self.now) }
    {
        &self.content[..self.len]
    }

    /// The address as text. It takes no memory.
    pub fn as_str(&self) -> &str
        ensures { result.now ≡ self.now }
    {
        match from_utf8(self.as_bytes()) {
            Ok(address) => address,
            Err(_) => unreachable!(),
        }
    }
}

/// A message of a node, of at most 200 bytes of UTF-8, seen as their list.
#[derive(Clone, Copy, Debug, PartialEq, Eq)]
pub struct Words {
    content: [u8; 200],
    len: usize,
}

impl Model for Words {
    ghost use Rattle.std.specs.Prelude.{ℕ, List, take, length, ◌≡◌, true, refl};
    ghost use Rattle.std.specs.Str.{is_utf8};
    ghost use Rattle.grid_types.specs.Padded.{IsPadded, padded};
    ghost use Rattle.grid_types.specs.Padded.{length-kept, padded-kept};

    ghost Value = { List ℕ };

    ghost view = { λ w. take w.len w.content };

    ghost invariant = { λ w. IsPadded 200 w.content w.len × (is_utf8 (take w.len w.content) ≡ true) };

    ghost inverse = { λ l. record { content = padded 200 l; len = length l } };

    ghost inverse_ok = { λ a h. Prim.rw (padded-kept 200 a.content a.len h.0, length-kept 200 a.content a.len h.0) refl };
}

impl Words {
    /// Keeps the longest prefix of whole characters of at most 200 bytes. It takes no memory.
    pub fn cut(text: &str) -> Words
        ensures { IsCutAt 200 text.now result }
    {
        let kept = &text[..text.floor_char_boundary(200)];
        let mut content = [0; 200];
        fill(&mut content, kept.as_bytes());
        Words {
            content,
            len: kept.len(),
        }
    }

    /// The words as text. It takes no memory.
    pub fn as_str(&self) -> &str
        ensures bytes { result.now ≡ self.now }
        ensures utf8 { IsUtf8 self.now }
        ensures few { length self.now ≤ 200 }
    {
        match from_utf8(&self.content[..self.len]) {
            Ok(words) => words,
            Err(_) => unreachable!(),
        }
    }
}
