//! A keeper over a table of an SQL database. It tells no content: what a crash leaves of the table is the database's
//! promise.
#![tactic(auto)]

mod either;
mod faults;
mod sql_keeper;

pub use either::EitherKeeper;
pub use sql_keeper::SqlKeeper;
