//! Bytes: owned texts and lists, numbers written as bytes or as decimal digits, names and addresses as they are
//! printed, numerals in words, and a cursor that reads numbers back.
//!
//! It promises that each read gives exactly the number that the bytes spell, or nothing where the
//! bytes run out, and that what was read gives the same bytes when it is written again. Numbers are
//! little endian; LEB128 is that of DWARF 5, section 7.6. Below are `byteorder` and
//! `itoa`.
#![tactic(auto)]

mod cursor;
mod fail;
mod front;
mod leb;
mod listed;
mod number;
mod numerals;
mod parts;
mod printing;
mod reader;
mod text;

pub use cursor::Cursor;
pub use fail::{Fail, Memory};
pub use listed::Listed;
pub use number::{put_decimal, put_u32, put_u64, put_words};
pub use numerals::decimal;
pub use parts::{first_bytes, push_some};
pub use printing::{put_address, put_place, put_printed, put_text};
pub use reader::Reader;
pub use text::Text;
