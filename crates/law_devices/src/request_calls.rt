//! One transaction of a queue head that works on a stage of a control request (EHCI 1.0, 3.6 and 4.10; USB 2.0, 8.5.3): over any bus whose control
//! endpoints answer by their stage, and that loses packets as it likes, it is one transaction of the request, for a SETUP, an IN, an OUT and a
//! PING alike.
//!
//! The module has no code of its own: its function is a law over the definitions of `law_request` and `async_walk`, and its body is empty.

mod laws;

pub use laws::a_transaction_is_one_of_the_request;
