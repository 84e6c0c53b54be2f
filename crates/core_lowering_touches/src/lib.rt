//! What calls on container fields, and loops over them, do to what these hold.
//!
//! The code of such a call is made in two parts, that before its arguments and that behind them.
#![tactic(auto)]

mod touches;

pub use touches::{Touched, fetch_container, look_over, touch, touched_in};
