//! Headers that go with the bodies.

/// The media type of a JSON body (RFC 8259 §11, WebDriver §6.3).
pub const JSON_TYPE: &[u8] = b"application/json; charset=utf-8";

/// An answer is not to be kept (RFC 9111 §5.2.2.4, WebDriver §6.3).
pub const NO_CACHE: &[u8] = b"no-cache";
