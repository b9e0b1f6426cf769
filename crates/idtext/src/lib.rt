//! The texts of account files: lines, fields, words, numbers and escapes, bytes as values, and what
//! may be wrong with a line.
//!
//! Sources: passwd(5) and group(5) for lines and fields, login.defs(5) of the shadow suite for
//! words and numbers, chown(2) for the greatest id, mtree(5) and vis(3) for escapes. Texts are
//! bytes and need not be UTF-8. Each reader goes over its text once and takes no memory.
//! [`push_number`], [`push_escaped`], [`push_parts`] and [`ByteString::push_line`] append to a
//! text, and leave it as it was where memory is refused; [`ByteString::copy_of`] copies one.
#![tactic(auto)]

mod escapes;
mod faults;
mod laws;
mod name;
mod names;
mod numbers;
mod parts;
mod pieces;
mod words;

pub use escapes::{Character, first_character, push_escaped};
pub use faults::{ReadError, TextCode, TextFault};
pub use laws::{
    escaped_bytes_are_visible, escapes_are_read_from_the_left, lawful_names_are_these_bytes,
    numbers_read_are_ids, other_backslashes_are_bad_or_plain,
};
pub use name::{ByteString, Name};
pub use names::{is_lawful_name, is_skipped};
pub use numbers::{GREATEST_ID, c_number, decimal, push_number};
pub use parts::push_parts;
pub use pieces::{Lines, Pieces, cut, fields, split_at_last_space};
pub use words::{MOST_LINE_BYTES, Words, first_word};
