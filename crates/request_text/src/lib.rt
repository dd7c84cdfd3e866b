//! Request lines and the texts of answers, checks and made tilesets: what a user writes, and what is written back.
//! Both are exact: a line is read to its plan or refused by the first rule that it breaks, and an outlet gets the text
//! of an answer and nothing else.
#![tactic(auto)]

mod check_text;
mod fields;
mod input;
pub mod laws;
mod length;
mod line;
mod made_text;
mod text;

pub use check_text::write_check;
pub use fields::push_field;
pub use input::next_line;
pub use length::answer_length;
pub use line::{Line, Refusal, cut, is_coordinates, is_number, line_of, parse_line, read_number};
pub use made_text::{write_made, write_survey};
pub use text::{append_answer, push_refusal, push_word_line, write_answer, write_refusal};
