//! A keeper over one of two kinds of database.
use crate::sql_keeper::SqlKeeper;
use grid_types::Bytes;
use row_keeper::{KeepFault, Keeper};
use sqlite::Alter;
use std::alloc::Global;

/// A keeper over a database in memory, or over one in a file. It is one type, so that a program that has both is compiled with
/// one hub over it.
#[derive(Drop)]
pub enum EitherKeeper<M: Alter, F: Alter> {
    Memory(SqlKeeper<M>),
    File(SqlKeeper<F>),
}

impl<M: Alter, F: Alter> Keeper for EitherKeeper<M, F> {
    ghost use Rattle.std.specs.Prelude.{None};
    ghost use Rattle.sql_keeper.specs.Either.{faults_of};

    ghost faults = { faults_of };

    ghost disk = { λ k. None };

    fn keep(&mut self, row: &[u8]) -> Result<(), KeepFault> {
        match self {
            EitherKeeper::Memory(keeper) => keeper.keep(row),
            EitherKeeper::File(keeper) => keeper.keep(row),
        }
    }

    fn row(&mut self, alloc: Global, index: u64) -> Result<Option<Bytes>, KeepFault> {
        match self {
            EitherKeeper::Memory(keeper) => keeper.row(alloc, index),
            EitherKeeper::File(keeper) => keeper.row(alloc, index),
        }
    }
}
