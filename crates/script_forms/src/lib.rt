//! The lines of a script as a table: a first word, and the forms of what follows it, each a list of slots for words.
//!
//! `FirstWord::of_version`, `form_of` and `statement` are what others call: from the words of a line to the form that they fit or
//! the first cause for which they fit none, and to what the line says. A new line of the grammar is a row of the table.
//! The values are those of USB 2.0: addresses (8.3.2), transfer types and packet sizes (5.5 to 5.8), setup data (9.3).
//! Beside it, `script_world` knows which lines may follow which, and `script_text` reads whole texts.
#![tactic(auto)]

mod causes;
mod fitting;
mod hexes;
mod numbers;
mod reading;
mod statements;
mod table;
mod versions;
mod words;
pub mod worked;

pub use causes::TextWhy;
pub use fitting::form_of;
pub use hexes::hex_bytes;
pub use numbers::number_of;
pub use reading::statement;
pub use statements::{
    Answer, Below, Content, ControlLine, EpLine, FateLine, GetLine, IsoLine, Name, PutLine,
    Statement,
};
pub use table::{FirstWord, Form, Keyword, Slot, forms, keyword_text, slots};
pub use words::Word;
