//! What the words ask for.
ghost use Rattle.std.specs.Prelude.{◌≡◌};
ghost use Rattle.grid_report.specs.Words.{report_named, report_of};

use grid_types::Text;

/// What is reported of a whole history.
#[derive(Clone, Copy, Debug, PartialEq, Eq)]
pub enum Report {
    /// Its counts and gauges, in the text format of Prometheus.
    Metrics,
    /// What there is behind it, and what the last hour was like, as a page of HTML.
    Page,
}

fn report_named(word: &str) -> Option<Report>
    ensures { result ≡ report_named word.now }
{
    if word == "--metrics" {
        Some(Report::Metrics)
    } else if word == "--page" {
        Some(Report::Page)
    } else {
        None
    }
}

/// The report that the words ask for.
pub(crate) fn report_of(words: &[Text]) -> Option<Report>
    ensures { result ≡ report_of words.now }
{
    match words {
        [word] => report_named(word.as_str()),
        _ => None,
    }
}
