//! The programs' arguments, and a node and a driver as their programs run them.
mod arguments;
mod driver;
mod lists;
mod node;
