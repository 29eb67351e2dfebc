//! The text of operands: the words and marks of a line, the numbers and names in it, and the forms that
//! operands may have. A form is a text of signs (`specs/Forms.antt` has their meaning), and one text serves
//! both ways: `chosen` reads the first of several forms that operands have, and `write_form` shows a form
//! with numbers in it.
#![tactic(auto)]

mod cuts;
mod fields;
mod form_texts;
mod forms;
pub mod laws;
mod names;
mod numbers;
mod registers;
mod shown_list;
mod shown_names;
mod text;
mod worked;
mod written;

pub use cuts::{before_code, from_code};
pub use fields::{Chosen, MOST_NUMBERS};
pub use form_texts::form_in;
pub use forms::chosen;
pub use names::place;
pub use text::{after_blanks, after_word, front_word, is_name};
pub use worked::{refused_operands, worked_operands, worked_parts};
pub use written::write_form;
