//! JSON text (RFC 8259) cut into slices of the text, with its numbers untouched.
//!
//! Choices that concern this crate alone:
//!
//! - `json` stands beside `serde_json` as a dependency for one proof: the meaning of a string is defined in its
//!   specs, and a crate can name only crates that it lists.
//! - An escape that names a second half of a surrogate pair counts as going on until its last digit; a whole half
//!   that stands alone is refused at its backslash.
//! - `Syntax` holds what was read to 127 levels and what may go on to any depth, so that no place is both a syntax
//!   fault and too deep.
//! - `cut` tests once that the whole text is UTF-8. A value begins and ends with ASCII, so each part is cut between
//!   characters, and `text` and `squeezed` have no answer but the text and out of memory.
//! - That no text which is read has a fault has the premise that the text is UTF-8: the grammar's characters may be
//!   any bytes from 32 on.
//! - `element_count` is there for a caller that names the number of elements of a list that is too long.
//! - `elements` and `members` may answer out of memory only where the list has an element, the object a member.
#![tactic(auto)]

mod count;
mod element_list;
mod fault;
mod kind;
mod laws;
mod list;
mod machine;
mod member_list;
mod names;
mod object;
mod parts;
mod span;
mod squeeze;
mod strings;
mod table;
mod whole;

pub use count::element_count;
pub use element_list::ElementList;
pub use fault::JsonFault;
pub use kind::Kind;
pub use laws::{
    a_text_is_read_one_way, a_text_is_refused_one_way, fixed_limits, strings_are_characters,
};
pub use list::elements;
pub use machine::MAX_DEPTH;
pub use member_list::MemberList;
pub use names::members;
pub use object::MAX_MEMBERS;
pub use span::Span;
pub use squeeze::squeezed;
pub use strings::text;
pub use whole::cut;
