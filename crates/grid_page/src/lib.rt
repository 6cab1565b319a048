//! A page that shows a farm: one document of HTML with an SVG picture, and nothing from elsewhere.
#![tactic(auto)]

mod escapes;
mod hour;
mod nodes;
mod parts;
mod picture;
mod whole;

pub use whole::page;
