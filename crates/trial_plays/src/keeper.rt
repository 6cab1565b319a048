//! Trials of a hub that keeps its calls: a connection's rows make its hub again, also where a keep failed, and a row that can't
//! be made again is told; and a keeper over a table of a database.
mod bad_rows;
mod row_one;
mod table;
