//! One value of a text, as a slice of it.
ghost use Rattle.std.specs.Prelude.{◌≡◌, ◌<◌, ◌+◌, ◌^◌, length, true};
ghost use Rattle.std.specs.Str.{is_utf8};
ghost use Rattle.json_spans.specs.Parts.{is_value, kind_of};

use crate::kind::Kind;

/// One JSON value: a slice of the text that was cut, and the place where it begins in that text.
#[derive(Clone, Copy)]
pub struct Span<'a> {
    pub(crate) bytes: &'a [u8],
    pub(crate) place: u64,
    pub ghost valid: { is_value bytes.now ≡ true },
    pub ghost utf8: { is_utf8 bytes.now ≡ true },
    pub ghost fits: { place + length bytes.now < 2 ^ 64 },
}

impl<'a> Span<'a> {
    ghost use Rattle.std.specs.Prelude.{◌≡◌, IsUtf8};
    ghost use Rattle.json_spans.specs.Parts.{kind_of};
    ghost use Rattle.json_spans.specs.Span.{part_of};

    /// What the value is, as its first byte tells.
    pub fn kind(&self) -> Kind
        ensures { result ≡ kind_of (part_of self.now).bytes }
    {
        match self.bytes {
            [b'{', ..] => Kind::Object,
            [b'[', ..] => Kind::List,
            [b'"', ..] => Kind::Text,
            [b't', ..] => Kind::True,
            [b'f', ..] => Kind::False,
            [b'n', ..] | [] => Kind::Null,
            _ => Kind::Number,
        }
    }

    /// How many bytes of the text stand before this value.
    pub fn place(&self) -> u64
        ensures { result ≡ (part_of self.now).place }
    {
        self.place
    }

    /// The value's bytes, a slice of the text that was cut.
    pub fn bytes(&self) -> &'a [u8]
        ensures value { result.now ≡ (part_of self.now).bytes }
        ensures utf8 { IsUtf8 result.now }
    {
        self.bytes
    }
}
