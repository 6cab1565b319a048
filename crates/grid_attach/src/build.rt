//! The version of its build that a driver tells.
ghost use Rattle.std.specs.Prelude.{◌≡◌, IfOk};
ghost use Rattle.serde_json.specs.Read.{read};
ghost use Rattle.serde_json.specs.View.{view};
ghost use Rattle.grid_attach.specs.Builds.{AnswerTells, BodyTells, VersionIs, first_word, short_word, version_in, version_of_json};

use grid_outside::{ExchangeFault, Reply};
use grid_types::{MOST_NAME_BYTES, NoMemory, Text};
use serde_json::Value;
use std::alloc::Global;
use std::str::from_utf8;

fn first_word(text: &str) -> &str
    ensures { result.now ≡ first_word text.now }
{
    match text.split_once(' ') {
        Some((word, _)) => word,
        None => text,
    }
}

/// Nothing in place of a word that is longer than the arguments' may be.
fn short_word(word: &str) -> &str
    ensures { result.now ≡ short_word word.now }
{
    if word.len() <= MOST_NAME_BYTES {
        word
    } else {
        ""
    }
}

/// chromedriver and msedgedriver write it as `121.0.6167.85 (..)`.
fn version_in(status: &Value) -> &str
    ensures { result.now ≡ version_in (view status.now) }
{
    let Some(version) = status.pointer("/value/build/version") else {
        return "";
    };
    match version.as_str() {
        Some(text) => short_word(first_word(text)),
        None => "",
    }
}

fn version_of_json(alloc: Global, text: &str) -> Result<Text, NoMemory>
    ensures { IfOk result (λ v. v ≡ version_of_json (read text.now)) }
{
    match Value::from_str(alloc, text) {
        Ok(status) => Text::of(alloc, version_in(&status)),
        Err(error) => {
            if error.is_memory() {
                Err(NoMemory)
            } else {
                Text::of(alloc, "")
            }
        }
    }
}

fn version_of_body(alloc: Global, body: &[u8]) -> Result<Text, NoMemory>
    ensures { IfOk result (λ v. BodyTells body.now v) }
{
    match from_utf8(body) {
        Ok(text) => version_of_json(alloc, text),
        Err(_) => Text::of(alloc, ""),
    }
}

fn version_of_answer(alloc: Global, seen: &Result<Reply, ExchangeFault>) -> Result<Text, NoMemory>
    ensures { IfOk result (λ v. AnswerTells seen.now v) }
{
    match seen {
        Ok(Reply::Http(reply)) => version_of_body(alloc, reply.body.as_bytes()),
        Ok(Reply::NotHttp(_)) => Text::of(alloc, ""),
        Err(_) => Text::of(alloc, ""),
    }
}

/// The browser's version: what the arguments say, or, where they say none, what the driver's answer to its status tells.
pub(crate) fn version(
    alloc: Global,
    said: &str,
    seen: &Result<Reply, ExchangeFault>,
) -> Result<Text, NoMemory>
    ensures { IfOk result (λ v. VersionIs said.now seen.now v) }
{
    if said.is_empty() {
        version_of_answer(alloc, seen)
    } else {
        Text::of(alloc, said)
    }
}
