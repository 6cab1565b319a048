//! A report of a journal's whole history.
ghost use Rattle.std.specs.Prelude.{◌≡◌};
ghost use Rattle.grid_farm.specs.Known.{known};
ghost use Rattle.grid_log.specs.Logs.{input_of, output_of};
ghost use Rattle.grid_metrics.specs.Metrics.{metrics};
ghost use Rattle.grid_page.specs.Page.{page};
ghost use Rattle.grid_report.specs.Reports.{ReportEnds, report_by, unread_status};
ghost use Rattle.grid_report.specs.Writes.{TextEnds};

use crate::words::Report;
use grid_farm::{KnownFarm, Unread, read_farm};
use grid_log::{CUT, NOT_JOURNAL, ending_status, fault_status};
use grid_metrics::metrics;
use grid_outside::{Sink, Source, write_all};
use grid_page::page;
use journal_reader::Ending;
use std::alloc::Global;

/// The status where a write failed.
const WRITE_FAILED: u8 = 6;

/// The status where memory was wanted.
const NO_MEMORY: u8 = 7;

/// Writes a text: the status, which is that of the journal's end where all was written.
fn write_text<K: Sink>(bytes: &[u8], ending: Ending, output: &mut K) -> u8
    ensures { TextEnds bytes.now ending (output_of (K.view output.old).taken (K.view output.old).faults)
        (output_of (K.view output.new).taken (K.view output.new).faults) result }
{
    match write_all(output, bytes) {
        Ok(()) => ending_status(ending),
        Err(_) => WRITE_FAILED,
    }
}

/// Writes the metrics of what is known of a farm.
fn write_metrics<K: Sink>(alloc: Global, farm: &KnownFarm, ending: Ending, output: &mut K) -> u8
    ensures { TextEnds (metrics (known farm.now)) ending
        (output_of (K.view output.old).taken (K.view output.old).faults)
        (output_of (K.view output.new).taken (K.view output.new).faults) result }
{
    match metrics(alloc, farm) {
        Ok(text) => write_text(text.as_bytes(), ending, output),
        Err(_) => NO_MEMORY,
    }
}

/// Writes its page.
fn write_page<K: Sink>(alloc: Global, farm: &KnownFarm, ending: Ending, output: &mut K) -> u8
    ensures { TextEnds (page (known farm.now)) ending
        (output_of (K.view output.old).taken (K.view output.old).faults)
        (output_of (K.view output.new).taken (K.view output.new).faults) result }
{
    match page(alloc, farm) {
        Ok(sheet) => write_text(sheet.as_bytes(), ending, output),
        Err(_) => NO_MEMORY,
    }
}

/// Writes the report of what is known of it.
fn write_report<K: Sink>(
    alloc: Global,
    report: Report,
    farm: &KnownFarm,
    ending: Ending,
    output: &mut K,
) -> u8
    ensures { TextEnds (report_by report (known farm.now)) ending
        (output_of (K.view output.old).taken (K.view output.old).faults)
        (output_of (K.view output.new).taken (K.view output.new).faults) result }
{
    match report {
        Report::Metrics => write_metrics(alloc, farm, ending, output),
        Report::Page => write_page(alloc, farm, ending, output),
    }
}

/// The status that tells why no journal was read to its end.
fn unread_status(why: Unread) -> u8
    ensures { result ≡ unread_status why }
{
    match why {
        Unread::NotJournal => NOT_JOURNAL,
        Unread::Cut => CUT,
        Unread::Fault(fault) => fault_status(fault),
    }
}

/// Reads a journal to its end and writes a report of its history: the status of a program that does just that. It is 0 where the
/// input is a journal up to its end, 2 where no entry begins behind those that were read, 3 where the input is cut off, in its
/// head or in its last entry, 4 where it is no journal and 9 where it has more bytes than are looked at; 5 where a read failed,
/// 6 where a write failed, and 7 for want of memory. Entries are not checked.
pub fn report<S: Source, K: Sink>(
    alloc: Global,
    report: Report,
    input: &mut S,
    output: &mut K,
) -> u8
    ensures { ReportEnds report
        (input_of (S.view input.old).given (S.view input.old).ends (S.view input.old).faults)
        (input_of (S.view input.new).given (S.view input.new).ends (S.view input.new).faults)
        (output_of (K.view output.old).taken (K.view output.old).faults)
        (output_of (K.view output.new).taken (K.view output.new).faults) result }
{
    match read_farm(alloc, input) {
        Ok(read) => write_report(alloc, report, &read.farm, read.ending, output),
        Err(why) => unread_status(why),
    }
}
