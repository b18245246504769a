//! Tests of memory's words: links and structures as words (EHCI 1.0, section 3), blocks and runs, buffers, and images.
//!
//! A library of no code: each module calls the crate that it is named after. They stand together above those crates, since the tests of a
//! crate are proved together with all of its code.
#![tactic(auto)]

#[cfg(test)]
mod of_app_probe;
#[cfg(test)]
mod of_image_codec;
#[cfg(test)]
mod of_image_text;
#[cfg(test)]
mod of_itd_sitd;
#[cfg(test)]
mod of_link_words;
#[cfg(test)]
mod of_mem_bytes;
#[cfg(test)]
mod of_mem_queues;
#[cfg(test)]
mod of_mem_runs;
#[cfg(test)]
mod of_qh_qtd;
#[cfg(test)]
mod of_word_mem;
