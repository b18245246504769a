//! Which texts spell which scripts, said line by line and without reading, and the law that reading is exact.
//!
//! `laws` is what others cite: a text is read as a script exactly where it spells it, in the sense of `TextSpells`, whose
//! lines have a first word, the words of one of its forms, and nothing that the script before them forbids. Setup data are
//! those of USB 2.0, 9.3. Beside it, `script_spelling` has the words of one line, `script_text` the reading.

pub mod laws;
