//! Appends that wait until all stands there.
ghost use Rattle.std.specs.Prelude.{◌≡◌, ℕ, ◌≤◌, ◌++◌, List, flat_map, length, None, OnOk, OnErr, is_some, take};
ghost use Rattle.grid_types.specs.declared.config.HubConfig.{HubConfig};
ghost use Rattle.grid_types.specs.declared.entry.Entry.{Entry};
ghost use Rattle.grid_journal.specs.Spelled.{entry_bytes};
ghost use Rattle.journal_keeper.specs.Keeps.{Adds, Holds};

use crate::keeper::{Keeper, News};
use grid_journal::PieceFault;
use std::sync::Wait;
use std::sync::atomic::AtomicU64;
use std::time::Duration;

/// The milliseconds of a pause after an append that failed.
const PAUSE: u64 = 100;

/// Waits for a while: no other thread knows this word, so it ends by its time.
fn pause<R: Wait>(rt: &R) {
    AtomicU64::new(0).park_timeout(rt, 0, Duration::from_millis(PAUSE));
}

/// Puts the piece behind all that stands there. After an append that failed, as where the disk is full, it waits, and goes
/// on behind what was taken, until all of the piece stands there.
pub fn keep_all<K: Keeper, R: Wait>(rt: &R, keeper: &mut K, piece: &[u8])
    ensures { Adds (K.kept keeper.old) (K.kept keeper.new) piece.now }
{
    let mut at = 0;
    for _ in rt.forever() {
        let (_taken, rest) = piece.split_at(at);
        match keeper.append(rest) {
            Ok(()) => return,
            Err(short) => {
                at += short.taken;
                keeper.tell(rt, News::Waits);
                pause(rt);
            }
        }
    }
}

/// Keeps the entries that a turn made, whose bytes the piece is where all were told. Where they could not be told, and are
/// to be kept, it never returns: a journal without them would be another hub's.
pub fn keep_told<K: Keeper, R: Wait>(
    rt: &R,
    keeper: &mut K,
    piece: &[u8],
    told: Result<(), PieceFault>,
)
    ensures told { OnOk told ((config : HubConfig) (log made : List Entry) →
        Holds config log (K.kept keeper.old) → piece.now ≡ flat_map entry_bytes made →
        Holds config (log ++ made) (K.kept keeper.new)) }
    ensures untold { OnErr told (K.kept keeper.new ≡ None) }
    ensures tells { is_some (K.kept keeper.new) ≡ is_some (K.kept keeper.old) }
{
    match told {
        Ok(()) => {
            keep_all(rt, keeper, piece);
            keeper.tell(rt, News::Kept(piece));
        }
        Err(_) => {
            if keeper.is_kept() {
                for _ in rt.forever() {
                    pause(rt);
                }
            }
        }
    }
}
