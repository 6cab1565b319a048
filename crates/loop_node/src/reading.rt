//! What the body of a request says.
ghost use Rattle.std.specs.Prelude.{◌≡◌, List, Option, IfOk};
ghost use Rattle.json_spans.specs.Span.{part_of};
ghost use Rattle.caps_merge.specs.Placed.{Placed, Member};
ghost use Rattle.caps_merge.specs.Shown.{Shows, IsShown};
ghost use Rattle.loop_node.specs.Reading.{object_of, ReadsObject, ShowsObject, fitting, url_asked};

use caps_merge::{object_members, text_where, value_named};
use grid_types::{NoMemory, Text};
use json_spans::{JsonFault, MemberList, Span, cut};
use std::alloc::Global;
use wd_bodies::json_text;

/// The most bytes of a url as JSON, its quotes included: those that a reply has room for.
const MAX_URL_JSON: usize = 16_777_206;

/// The members of a value that is an object.
fn object_in<'a>(alloc: Global, value: Span<'a>) -> Result<Option<MemberList<'a>>, NoMemory>
    requires { IsShown (part_of value) }
    ensures { IfOk result (λ list. (v : Placed) → Shows (part_of value.entry) v →
        ShowsObject list (object_of v)) }
{
    match object_members(alloc, value) {
        Ok(list) => Ok(list),
        Err(JsonFault::Memory) => Err(NoMemory),
        Err(_) => Ok(None),
    }
}

/// The members of a body that is an object.
pub(crate) fn object_of(alloc: Global, body: &[u8]) -> Result<Option<MemberList<'_>>, NoMemory>
    ensures { IfOk result (λ list. (o : Option (List Member)) × ReadsObject body.now o
        × ShowsObject list o) }
{
    match cut(body) {
        Ok(value) => object_in(alloc, value),
        Err(_) => Ok(None),
    }
}

/// The url, where its JSON is short enough for a reply.
fn fitting(alloc: Global, url: Option<Text>) -> Result<Option<Text>, NoMemory>
    ensures { IfOk result (λ t. t ≡ fitting url) }
{
    match url {
        Some(url) => {
            let json = json_text(alloc, url.as_str())?;
            if json.as_str().len() <= MAX_URL_JSON {
                Ok(Some(url))
            } else {
                Ok(None)
            }
        }
        None => Ok(None),
    }
}

/// The url that a body asks for.
pub(crate) fn url_asked(alloc: Global, body: &[u8]) -> Result<Option<Text>, NoMemory>
    ensures { IfOk result (λ url. (o : Option (List Member)) × ReadsObject body.now o
        × (url ≡ url_asked o)) }
{
    match object_of(alloc, body) {
        Ok(Some(members)) => {
            let found = value_named(alloc, members.items(), "url")?;
            let url = text_where(alloc, found)?;
            fitting(alloc, url)
        }
        Ok(None) => Ok(None),
        Err(NoMemory) => Err(NoMemory),
    }
}
