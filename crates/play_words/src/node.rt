//! The word that describes a node.
ghost use Rattle.std.specs.Prelude.{◌≡◌, ◌++◌, ℕ, List, true, IfSome, IfNone};
ghost use Rattle.std.specs.List.{list_all};
ghost use Rattle.play_words.specs.Node.{is_name_byte, begins_with_letter, is_browser, is_version_byte, is_version, lacks, SaysVersion, SaysCount, IsNode};

use crate::number::number_of;

/// The version of a browser where none is given.
const USUAL_VERSION: &str = "126.0";

/// What the word says.
#[derive(Clone, Copy)]
pub(crate) struct NodeWord<'a> {
    pub browser: &'a str,
    pub version: &'a str,
    pub refuses: u32,
}

fn are_name_bytes(name: &[u8]) -> bool
    ensures { result ≡ list_all is_name_byte name.now }
{
    name.iter().all(|b| b.is_ascii_alphabetic() || *b == b'-')
}

fn begins_with_letter(name: &[u8]) -> bool
    ensures { result ≡ begins_with_letter name.now }
{
    match name {
        [first, ..] => first.is_ascii_alphabetic(),
        [] => false,
    }
}

fn is_browser(name: &[u8]) -> bool
    ensures { result ≡ is_browser name.now }
{
    begins_with_letter(name) && name.len() <= 32 && are_name_bytes(name)
}

fn are_version_bytes(version: &[u8]) -> bool
    ensures { result ≡ list_all is_version_byte version.now }
{
    version
        .iter()
        .all(|b| b.is_ascii_alphanumeric() || *b == b'.')
}

fn is_version(version: &[u8]) -> bool
    ensures { result ≡ is_version version.now }
{
    version.len() >= 1 && version.len() <= 32 && are_version_bytes(version)
}

// What stands before the first '!', and the count behind it.
fn count_of(word: &str) -> Option<(&str, u32)>
    ensures some { IfSome result (λ x. (part : List ℕ)
        × (word.now ≡ x.0.now ++ part) × (lacks 33 x.0.now ≡ true) × SaysCount part x.1) }
    ensures none { IfNone result ((front part : List ℕ) (count : ℕ) →
        word.now ≡ front ++ part → lacks 33 front ≡ true → ¬ SaysCount part count) }
{
    match word.split_once('!') {
        Some((front, text)) => match number_of(text, 999) {
            Some(count) => Some((front, count)),
            None => None,
        },
        None => Some((word, 0)),
    }
}

// What stands before the first '@', and the version behind it.
fn version_of(word: &str) -> Option<(&str, &str)>
    ensures some { IfSome result (λ x. (part : List ℕ)
        × (word.now ≡ x.0.now ++ part) × (lacks 64 x.0.now ≡ true) × SaysVersion part x.1.now) }
    ensures none { IfNone result ((front part version : List ℕ) →
        word.now ≡ front ++ part → lacks 64 front ≡ true → ¬ SaysVersion part version) }
{
    match word.split_once('@') {
        Some((front, version)) => {
            if is_version(version.as_bytes()) {
                Some((front, version))
            } else {
                None
            }
        }
        None => Some((word, USUAL_VERSION)),
    }
}

/// What the word says of a node; None where it describes none.
pub(crate) fn node_of(word: &str) -> Option<NodeWord<'_>>
    ensures some { IfSome result (λ n. IsNode word.now n.browser.now n.version.now n.refuses) }
    ensures none { IfNone result ((browser version : List ℕ) (refuses : ℕ) →
        ¬ IsNode word.now browser version refuses) }
{
    let Some((front, refuses)) = count_of(word) else {
        return None;
    };
    let Some((browser, version)) = version_of(front) else {
        return None;
    };
    if is_browser(browser.as_bytes()) {
        Some(NodeWord {
            browser,
            version,
            refuses,
        })
    } else {
        None
    }
}
