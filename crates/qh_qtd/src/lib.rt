//! Queue heads and queue element transfer descriptors (EHCI 1.0, 3.5 and 3.6): their words read and written.
//!
//! `Qh::read`, `Qtd::read` and their `write`; a token alone is `Token`. Others are written as changes of `Qh::blank`,
//! `Qtd::blank` and `Token::blank`. Isochronous descriptors stand beside it in `itd_sitd`, structures at
//! addresses of memory above it in `mem_queues`.
#![tactic(auto)]

mod blank;
mod laws;
mod qtd;
mod queue_head;
mod token;

pub use blank::worked_blanks;
pub use laws::worked_layouts;
pub use link_words::Bad;
pub use qtd::Qtd;
pub use queue_head::Qh;
pub use token::Token;
