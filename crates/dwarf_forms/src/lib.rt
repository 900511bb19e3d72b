//! The forms of DWARF 5: values of attributes by their form, and abbreviation tables.
//!
//! It promises that each value is the one that the table of forms gives for the bytes at an offset, with
//! every cause of refusal exact, and that an abbreviation table is the list of declarations that its
//! bytes spell. The standard is DWARF 5, sections 7.5.3 to 7.5.6. Below is `prof_bytes` alone.
#![tactic(auto)]

pub mod constants;
mod declaration;
mod encoding;
mod first_attributes;
mod fronts;
mod laws;
mod lookup;
mod read;
mod section;
mod sizes;
mod spec_index;
mod table;
mod text;
mod value;
mod words;

pub use declaration::{Abbrev, Abbrevs, BadTable, Declarations, Spec, Specs};
pub use encoding::is_value_form;
pub use fronts::FixedFront;
pub use laws::declaration_count_is_at_most_bytes;
pub use lookup::{code_at, first_declaration, specs_at};
pub use read::{read_form, read_value};
pub use section::reader_at;
pub use table::{attribute, read_abbrevs};
pub use text::{SectionText, StringSection};
pub use value::{FormFault, Value};
pub use words::low_word_signed;
