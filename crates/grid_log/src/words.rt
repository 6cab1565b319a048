//! What words ask for.
ghost use Rattle.std.specs.Prelude.{◌≡◌};
ghost use Rattle.grid_log.specs.Words.{asked_by, follow_of, form_named, form_of};

use crate::form::Form;
use grid_types::Text;

/// A log that is asked for.
#[derive(Clone, Copy, Debug, PartialEq, Eq)]
pub struct AskedLog {
    /// How its lines are written.
    pub form: Form,
    /// How often it waits for its input to grow.
    pub pauses: u64,
}

fn form_named(word: &str) -> Option<Form>
    ensures { result ≡ form_named word.now }
{
    if word == "--json" {
        Some(Form::Json)
    } else {
        None
    }
}

fn form_of(words: &[Text]) -> Option<Form>
    ensures { result ≡ form_of words.now }
{
    match words {
        [] => Some(Form::Text),
        [word] => form_named(word.as_str()),
        _ => None,
    }
}

fn follow_of(words: &[Text]) -> Option<Form>
    ensures { result ≡ follow_of words.now }
{
    match words {
        [word, rest @ ..] => {
            if word.as_str() == "--follow" {
                form_of(rest)
            } else {
                None
            }
        }
        [] => None,
    }
}

/// The log that the words ask for.
pub(crate) fn asked_by(words: &[Text]) -> Option<AskedLog>
    ensures { result ≡ asked_by words.now }
{
    match form_of(words) {
        Some(form) => Some(AskedLog { form, pauses: 0 }),
        None => match follow_of(words) {
            Some(form) => Some(AskedLog {
                form,
                pauses: u64::MAX,
            }),
            None => None,
        },
    }
}
