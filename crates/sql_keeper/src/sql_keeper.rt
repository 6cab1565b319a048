//! The keeper.
ghost use Rattle.std.specs.Prelude.{◌≡◌, ◌≤◌};
ghost use Rattle.grid_outside.specs.Counts.{Rose};
ghost use Rattle.row_keeper.specs.declared.keeper.KeepFault.TheVariants as keep;

use crate::faults::fault_of;
use grid_types::Bytes;
use row_keeper::{KeepFault, Keeper};
use sqlite::{Alter, Connection, Row, Statement, params};
use std::alloc::Global;

const INSERT: &str = "INSERT INTO turns (number, body) VALUES (?1, ?2)";

const SELECT: &str = "SELECT body FROM turns WHERE number = ?1";

const COUNT: &str =
    "SELECT COUNT(*), COALESCE(MIN(number), 0), COALESCE(MAX(number), -1) FROM turns";

/// Keeps rows in the table `turns(number INTEGER PRIMARY KEY, body BLOB NOT NULL)` of a database, numbered from 0. Each row
/// is a commit of its own.
#[derive(Drop)]
pub struct SqlKeeper<S: Alter> {
    conn: Connection<S>,
    insert: Statement,
    select: Statement,
    /// How many rows there are.
    count: u64,
    faults: u64,
}

fn number_at(row: &Row, column: usize) -> Result<i64, KeepFault> {
    match row.get(column) {
        Ok(number) => Ok(number),
        Err(error) => Err(fault_of(error)),
    }
}

/// How many rows there are by what the database counted.
fn counted(row: &Row) -> Result<u64, KeepFault> {
    let count = number_at(row, 0)?;
    let first = number_at(row, 1)?;
    let last = number_at(row, 2)?;
    let Ok(rows) = u64::try_from(count) else {
        return Err(KeepFault::Failed);
    };
    if first != 0 || last != count - 1 {
        return Err(KeepFault::Failed);
    }
    Ok(rows)
}

/// How many rows there are in the table. Failed also where their numbers are not those from 0 on, without a hole: then
/// rows are missing, and those that are there say nothing.
fn count_rows<S: Alter>(conn: &mut Connection<S>) -> Result<u64, KeepFault> {
    match conn.query_row(COUNT, &[]) {
        Ok(row) => counted(&row),
        Err(error) => Err(fault_of(error)),
    }
}

/// What a keeper needs of its connection: both statements, and how many rows there are.
fn prepared<S: Alter>(conn: &mut Connection<S>) -> Result<(Statement, Statement, u64), KeepFault> {
    let count = count_rows(conn)?;
    let insert = conn.prepare(INSERT).map_err(fault_of)?;
    let select = conn.prepare(SELECT).map_err(fault_of)?;
    Ok((insert, select, count))
}

fn insert_row<S: Alter>(
    conn: &mut Connection<S>,
    insert: &Statement,
    number: u64,
    row: &[u8],
) -> Result<(), KeepFault> {
    let Ok(number) = i64::try_from(number) else {
        return Err(KeepFault::Memory);
    };
    match insert.execute(conn, params![number, row]) {
        Ok(_) => Ok(()),
        Err(error) => Err(fault_of(error)),
    }
}

fn body_of(row: &Row) -> Result<Vec<u8>, KeepFault> {
    match row.get::<Vec<u8>>(0) {
        Ok(body) => Ok(body),
        Err(error) => Err(fault_of(error)),
    }
}

fn select_row<S: Alter>(
    conn: &mut Connection<S>,
    select: &Statement,
    number: u64,
) -> Result<Vec<u8>, KeepFault> {
    let Ok(number) = i64::try_from(number) else {
        return Err(KeepFault::Memory);
    };
    match select.query_row(conn, params![number]) {
        Ok(row) => body_of(&row),
        Err(error) => Err(fault_of(error)),
    }
}

impl<S: Alter> SqlKeeper<S> {
    /// A keeper over the connection's table `turns`, with the rows that it has. Failed: there is no such table, its numbers
    /// have a hole, or the database failed. An Err hands the connection back.
    pub fn adopt(conn: Connection<S>) -> Result<SqlKeeper<S>, (KeepFault, Connection<S>)> {
        let mut conn = conn;
        match prepared(&mut conn) {
            Ok((insert, select, count)) => Ok(SqlKeeper {
                conn,
                insert,
                select,
                count,
                faults: 0,
            }),
            Err(fault) => Err((fault, conn)),
        }
    }

    /// How many rows there are.
    pub fn count(&self) -> u64 {
        self.count
    }

    /// The connection.
    pub fn into_connection(self) -> Connection<S> {
        self.conn
    }

    /// Counts the fault, unless it is want of memory.
    fn noted(&mut self, fault: KeepFault) -> KeepFault
        ensures same { result ≡ fault }
        ensures later { self.old.faults ≤ self.new.faults }
        ensures rose { fault ≡ keep.Failed → Rose self.old.faults self.new.faults }
    {
        if fault == KeepFault::Failed {
            self.faults = self.faults.saturating_add(1);
        }
        fault
    }
}

impl<S: Alter> Keeper for SqlKeeper<S> {
    ghost use Rattle.std.specs.Prelude.{None};

    ghost faults = { λ k. k.faults };

    ghost disk = { λ k. None };

    fn keep(&mut self, row: &[u8]) -> Result<(), KeepFault> {
        match insert_row(&mut self.conn, &self.insert, self.count, row) {
            Ok(()) => {
                self.count = self.count.saturating_add(1);
                Ok(())
            }
            Err(fault) => Err(self.noted(fault)),
        }
    }

    fn row(&mut self, _alloc: Global, index: u64) -> Result<Option<Bytes>, KeepFault> {
        if index >= self.count {
            return Ok(None);
        }
        match select_row(&mut self.conn, &self.select, index) {
            Ok(body) => Ok(Some(Bytes::from_vec(body))),
            Err(fault) => Err(self.noted(fault)),
        }
    }
}
