//! What the words of a script's lines spell: each form by how its values are spelled, and the laws that reading is exact.
//!
//! `laws` is what others cite: words are read as a form exactly where they spell it, numbers by their decimal digits, bytes
//! by two digits each (setup data as eight bytes, USB 2.0, 9.3). Beside it, `script_forms` has the table and the reading.

pub mod laws;
