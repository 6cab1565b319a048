//! A keeper over a database in memory: what is kept is read again, also by a keeper that is made anew, and a table whose
//! numbers have a hole is refused.
use row_keeper::{KeepFault, Keeper};
use sql_keeper::SqlKeeper;
use sqlite::{Alter, Connection, MemStore};
use std::alloc::Global;

const TABLE: &str = "CREATE TABLE turns (number INTEGER PRIMARY KEY, body BLOB NOT NULL)";

/// What is done to a table of two rows, and whether it is no keeper's then.
const STATEMENTS: &[(&str, bool)] = &[
    ("DELETE FROM turns WHERE number = 0", true),
    ("UPDATE turns SET number = 7 WHERE number = 1", true),
    ("DROP TABLE turns", true),
    ("DELETE FROM turns WHERE number = 1", false),
];

const FIRST: &[u8] = &[13, 0, 255];

// What follows is over any keeper and any database, since the clauses of both at these in memory take the check long to write out.

/// Whether the row with this number is the one that is wanted.
fn is_row<K: Keeper>(keeper: &mut K, alloc: Global, index: u64, wanted: &[u8]) -> bool {
    match keeper.row(alloc, index) {
        Ok(Some(row)) => row.as_bytes() == wanted,
        _ => false,
    }
}

fn is_end<K: Keeper>(keeper: &mut K, alloc: Global, index: u64) -> bool {
    matches!(keeper.row(alloc, index), Ok(None))
}

fn keeps_both<K: Keeper>(keeper: &mut K, first: &[u8], second: &[u8]) -> bool {
    keeper.keep(first).is_ok() && keeper.keep(second).is_ok()
}

fn has_both<K: Keeper>(keeper: &mut K, alloc: Global, first: &[u8], second: &[u8]) -> bool {
    is_row(keeper, alloc, 0, first) && is_row(keeper, alloc, 1, second) && is_end(keeper, alloc, 2)
}

fn runs<S: Alter + Drop>(conn: &mut Connection<S>, statement: &str) -> bool {
    conn.execute_batch(statement).is_ok()
}

fn adopted<S: Alter + Drop>(conn: Connection<S>) -> Option<SqlKeeper<S>> {
    match SqlKeeper::adopt(conn) {
        Ok(keeper) => Some(keeper),
        Err(_) => None,
    }
}

/// Whether two rows are kept and read again, by the next keeper over the same table.
fn keeps<S: Alter + Drop>(alloc: Global, conn: Connection<S>) -> Option<bool> {
    let mut keeper = adopted(conn)?;
    let kept = is_end(&mut keeper, alloc, 0) && keeps_both(&mut keeper, FIRST, &[]);
    let mut again = adopted(keeper.into_connection())?;
    Some(kept && again.count() == 2 && has_both(&mut again, alloc, FIRST, &[]))
}

/// Whether the table is no keeper's.
fn is_refused<S: Alter + Drop>(conn: Connection<S>) -> bool {
    match SqlKeeper::adopt(conn) {
        Ok(_) => false,
        Err((fault, _)) => fault == KeepFault::Failed,
    }
}

/// Whether the table is refused once the statement was run over two rows.
fn refuses<S: Alter + Drop>(conn: Connection<S>, statement: &str) -> Option<bool> {
    let mut keeper = adopted(conn)?;
    let kept = keeps_both(&mut keeper, &[1], &[2]);
    let mut conn = keeper.into_connection();
    let ran = runs(&mut conn, statement);
    let refused = is_refused(conn);
    if kept && ran { Some(refused) } else { None }
}

/// A connection with an empty table.
fn with_table(alloc: Global) -> Option<Connection<MemStore>> {
    let mut conn = Connection::open_in_memory(alloc).ok()?;
    if runs(&mut conn, TABLE) {
        Some(conn)
    } else {
        None
    }
}

fn go_so(alloc: Global, statements: &[(&str, bool)]) -> Option<bool> {
    for (statement, wanted) in statements {
        let refused = refuses(with_table(alloc)?, *statement);
        if refused != Some(*wanted) {
            return Some(false);
        }
    }
    keeps(alloc, with_table(alloc)?)
}

#[test]
fn rows_are_kept_in_a_table(rt: HostRuntime) {
    assert!(rt; go_so(rt.alloc(), STATEMENTS) == Some(true));
}
