//! Worked cases of the rules, the published map between a put and its removal, and the signs of life that a table notes.
mod map;
mod matching;
mod members;
mod moments;
mod selecting;
mod signs;
