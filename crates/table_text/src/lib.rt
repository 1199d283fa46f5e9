//! Records of comma-separated texts, and the numbers and names in their fields. Which records a
//! text must have is not known here.
//!
//! ```text
//! let rows = records(alloc, b"agent,2\nagent,03\n")?;
//! let mut text = Vec::new(alloc);
//! for index in 0..rows.len() {
//!     let row = rows.at(index);
//!     if is_word(row.field_at(0), b"agent") {
//!         if let Some(count) = read_count(row.field_at(1)) {
//!             put_number(alloc, b"demand", count, &mut text)?;
//!         }
//!     }
//! }
//! assert_eq!(rt; text.as_slice(), b"demand,2\ndemand,3\n".as_slice());
//! ```
#![tactic(auto)]

mod laws;
mod names;
mod numbers;
mod reading;
mod row;
mod rows;
mod shares;
mod words;
mod writing;

pub use laws::{text_reads_once, written_text_reads_back};
pub use names::{lawful_name, name_of};
pub use numbers::{digits, read_count, read_signed};
pub use reading::RecordReader;
pub use row::{NoMemory, Row};
pub use rows::{Rows, records};
pub use shares::read_share;
pub use words::{is_word, put_end, put_number, put_two, row_of_number, row_of_two, row_of_words};
pub use writing::row_bytes;
