//! Bytes that leave what is unfinished unfinished, so that nothing has to be parsed again for them.
ghost use Rattle.std.specs.Prelude.{◌≡◌, if◌then◌else◌};
ghost use Rattle.std.specs.List.{list_all};
ghost use Rattle.httparse.specs.Grammar.{is_value_byte, is_extension_byte};
ghost use Rattle.http_frames.specs.Heads.{IsOpenHead};
ghost use Rattle.http_frames.specs.Calm.{calm_at, calm_behind, calm_of_line, is_calm, is_blank, is_no_semicolon, last_line, StaysOpen, IsPartOfLine, LineStays, IsPartOfTrailers, TrailersStay};

use crate::heads::{ends_inside_target, is_awaited, skip_token};
use httparse::is_method_token;

/// Which bytes may follow an unfinished head, chunk line or section of trailers and leave it
/// unfinished (RFC 9112 §2.2, §3, §5 and §7.1).
#[derive(Clone, Copy, Debug)]
pub(crate) enum Calm {
    /// None is known: the next byte has to be judged.
    Nothing,
    /// Behind empty lines alone: further ones.
    Blank,
    /// Behind the CR of such a line: its LF.
    Return,
    /// In a method or in a field's name: bytes of a token.
    Token,
    /// In a target: all but the three bytes that end it.
    Target,
    /// In a field's value: bytes of a value.
    Value,
    /// In a chunk line before its extension: white space.
    Padding,
    /// In a chunk line's extension: all but CR and LF.
    Extension,
}

/// Whether some bytes are known.
pub(crate) fn is_calm(calm: Calm) -> bool
    ensures { result ≡ is_calm calm }
{
    !matches!(calm, Calm::Nothing)
}

/// Whether nothing but empty lines was read.
pub(crate) fn is_blank(calm: Calm) -> bool
    ensures { result ≡ is_blank calm }
{
    matches!(calm, Calm::Blank | Calm::Return)
}

/// What is so behind the byte.
fn calm_at(calm: Calm, b: u8) -> Calm
    ensures { result ≡ calm_at calm b }
{
    match calm {
        Calm::Nothing => Calm::Nothing,
        Calm::Blank => {
            if b == b'\n' {
                Calm::Blank
            } else {
                kept_if(b == b'\r', Calm::Return)
            }
        }
        Calm::Return => kept_if(b == b'\n', Calm::Blank),
        Calm::Token => kept_if(is_method_token(b), Calm::Token),
        Calm::Target => kept_if(is_awaited(b), Calm::Target),
        Calm::Value => kept_if(is_value(b), Calm::Value),
        Calm::Padding => kept_if(b == b' ' || b == b'\t', Calm::Padding),
        Calm::Extension => kept_if(is_of_extension(b), Calm::Extension),
    }
}

/// That, or nothing.
fn kept_if(holds: bool, calm: Calm) -> Calm
    ensures { result ≡ if holds then calm else Calm.Nothing }
{
    if holds { calm } else { Calm::Nothing }
}

/// What is so behind the bytes.
pub(crate) fn calm_behind(calm: Calm, part: &[u8]) -> Calm
    ensures { result ≡ calm_behind calm part.now }
{
    let mut calm = calm;
    for b in part.iter() {
        calm = calm_at(calm, *b);
    }
    calm
}

/// Which bytes may follow an unfinished head.
pub(crate) fn calm_of_head(text: &[u8]) -> Calm
    ensures { IsOpenHead text.now → StaysOpen result text.now }
{
    if ends_inside_target(text) {
        Calm::Target
    } else {
        calm_of_line(last_line(text))
    }
}

/// Which bytes may follow unfinished trailers.
pub(crate) fn calm_of_trailers(text: &[u8]) -> Calm
    ensures { IsPartOfTrailers text.now → TrailersStay result text.now }
{
    calm_of_line(last_line(text))
}

/// Which bytes may follow an unfinished chunk line.
pub(crate) fn calm_of_chunk_line(text: &[u8]) -> Calm
    ensures { IsPartOfLine text.now → LineStays result text.now }
{
    if text.is_empty() {
        return Calm::Nothing;
    }
    if !are_of_extension(text) {
        return Calm::Nothing;
    }
    if has_no_semicolon(text) {
        Calm::Padding
    } else {
        Calm::Extension
    }
}

/// Which bytes may follow a line that isn't whole: those of its name, or of its value.
fn calm_of_line(line: &[u8]) -> Calm
    ensures { result ≡ calm_of_line line.now }
{
    match skip_token(line) {
        [] => kept_if(!line.is_empty(), Calm::Token),
        [b':', value @ ..] => kept_if(are_values(value), Calm::Value),
        _ => Calm::Nothing,
    }
}

/// The text behind its last line feed.
fn last_line(text: &[u8]) -> &[u8]
    ensures { result.now ≡ last_line text.now }
{
    let mut line = text;
    for (i, b) in text.iter().enumerate() {
        if *b == b'\n' {
            line = &text[i + 1..];
        }
    }
    line
}

/// Whether all bytes may stand in a value.
fn are_values(text: &[u8]) -> bool
    ensures { result ≡ list_all is_value_byte text.now }
{
    text.iter().all(|b| is_value(*b))
}

/// A tab, a space or any visible byte.
fn is_value(b: u8) -> bool
    ensures { result ≡ is_value_byte b }
{
    b == b'\t' || (b' ' <= b && b != 127)
}

/// Whether no byte is CR or LF.
fn are_of_extension(text: &[u8]) -> bool
    ensures { result ≡ list_all is_extension_byte text.now }
{
    text.iter().all(|b| is_of_extension(*b))
}

/// Any byte but CR and LF.
fn is_of_extension(b: u8) -> bool
    ensures { result ≡ is_extension_byte b }
{
    !(b == b'\r' || b == b'\n')
}

/// Whether no extension has begun.
fn has_no_semicolon(text: &[u8]) -> bool
    ensures { result ≡ list_all is_no_semicolon text.now }
{
    text.iter().all(|b| *b != b';')
}
