//! Whether nothing is left of a history to go on from.
ghost use Rattle.std.specs.Prelude.{◌≡◌, ◌≤◌, false, true};
ghost use Rattle.grid_ledger.specs.LedgerStands.{LedgerTells};
ghost use Rattle.hub_store.specs.Stores.{IsOngoing, IsOver, IsToGoOn, NoNode, SomeNode};

use grid_ledger::GridLedger;
use grid_replay::Replay;
use grid_types::history_laws;
use journal_verdicts::Journal;

/// Whether no node is listed. It looks at each number that a node has had.
fn has_no_node(ledger: &GridLedger) -> bool
    ensures none { result ≡ true → LedgerTells ledger.now NoNode }
    ensures some { result ≡ false → LedgerTells ledger.now SomeNode }
{
    history_laws();
    let first = ledger.config().first_node;
    let next = ledger.next_node();
    for node in first..next {
        if ledger.is_listed(node) {
            return false;
        }
    }
    true
}

/// Whether nothing goes on: no node is listed, no slot held or closing, and each request settled and taken.
fn is_over(ledger: &GridLedger) -> bool
    ensures over { result ≡ true → LedgerTells ledger.now IsOver }
    ensures ongoing { result ≡ false → LedgerTells ledger.now IsOngoing }
{
    if !has_no_node(ledger) {
        return false;
    }
    if !ledger.has_no_open_slot() {
        return false;
    }
    ledger.has_no_request()
}

/// Whether a hub goes on from the journal: it has no entry, or something goes on in it.
pub(crate) fn is_to_go_on(journal: &Journal<Replay>) -> bool
    ensures yes { result ≡ true → IsToGoOn journal.now }
    ensures no { result ≡ false →
        (1 ≤ journal.now.entries) × LedgerTells journal.now.ledger IsOver }
{
    if journal.entries == 0 {
        return true;
    }
    !is_over(&journal.ledger)
}
