//! A driver's plan as its hubs' translators have it (USB 2.0, 11.18): where what is placed keeps the budgets, the plan of each
//! translator fits in each frame, as the promise of a translator asks for.

pub mod laws;
pub mod worked;
