//! Words with what they say.
use grid_types::Text;
use play_words::{PlayNode, PlayWords, WordsFault, read_play, read_simulate};
use std::alloc::Global;

fn words_of(alloc: Global, line: &str) -> Option<Vec<Text>> {
    let mut words = Vec::new(alloc);
    for word in line.split_whitespace() {
        words.push(Text::of(alloc, word).ok()?).ok()?;
    }
    Some(words)
}

fn node_told(alloc: Global, node: &PlayNode) -> Option<String> {
    let browser = node.browser.as_str();
    let version = node.version.as_str();
    format!(in alloc; " {browser} {version} {} {}", node.refuses, node.slots).ok()
}

fn play_told(alloc: Global, play: &PlayWords) -> Option<String> {
    let config = &play.config;
    let mut text = format!(in alloc; "{} {}", config.timeout_ms, config.reject_unsupported).ok()?;
    for node in play.nodes.items() {
        text.push_str(node_told(alloc, node)?.as_str()).ok()?;
    }
    Some(text)
}

/// What the words say, in one line.
fn told(alloc: Global, words: &[Text]) -> Option<String> {
    if let Some(number) = read_simulate(words) {
        return format!(in alloc; "simulate {number}").ok();
    }
    match read_play(alloc, words) {
        Ok(play) => {
            let told = play_told(alloc, &play);
            // Let go by a call: the check of a value that ends by itself writes out all its fields.
            drop(play);
            told
        }
        Err(WordsFault::Refused) => String::from_str(alloc, "refused").ok(),
        Err(WordsFault::Memory) => None,
    }
}

/// Words, and what they say.
const ROWS: &[(&str, &str)] = &[
    ("play chrome 1", "300000 false chrome 126.0 0 1"),
    (
        "play chrome@127.0!2 64 safari-x 3 --reject-unsupported-caps true --session-request-timeout 10",
        "10000 true chrome 127.0 2 64 safari-x 126.0 0 3",
    ),
    (
        "play a@1 1 --session-request-timeout 86400",
        "86400000 false a 1 0 1",
    ),
    (
        "play a!999 1 --reject-unsupported-caps false",
        "300000 false a 126.0 999 1",
    ),
    ("play", "refused"),
    ("play chrome", "refused"),
    ("play chrome 0", "refused"),
    ("play chrome 01", "refused"),
    ("play chrome 65", "refused"),
    ("play -chrome 1", "refused"),
    ("play chrome@ 1", "refused"),
    ("play chrome!1@2 1", "refused"),
    ("play chrome!1000 1", "refused"),
    ("play chrome!0 1", "refused"),
    ("play chrome 1 --session-request-timeout 86401", "refused"),
    (
        "play chrome 1 --session-request-timeout 10 --reject-unsupported-caps true",
        "refused",
    ),
    ("play chrome 1 --reject-unsupported-caps yes", "refused"),
    (
        "play a 1 a 1 a 1 a 1 a 1 a 1 a 1 a 1 a 1 a 1 a 1 a 1 a 1 a 1 a 1 a 1 a 1",
        "refused",
    ),
    (
        "simulate 18446744073709551615",
        "simulate 18446744073709551615",
    ),
    ("simulate 0", "simulate 0"),
    ("simulate 01", "refused"),
    ("simulate 18446744073709551616", "refused"),
];

fn says(alloc: Global, line: &str, wanted: &str) -> Option<bool> {
    let words = words_of(alloc, line)?;
    let text = told(alloc, words.as_slice());
    drop(words);
    Some(text?.as_str() == wanted)
}

fn all_say(alloc: Global, rows: &[(&str, &str)]) -> Option<bool> {
    for (line, wanted) in rows {
        if !says(alloc, line, wanted)? {
            return Some(false);
        }
    }
    Some(true)
}

#[test]
fn words_say_plays(rt: HostRuntime) {
    let so = all_say(rt.alloc(), ROWS);
    assert!(rt; so == Some(true));
}
