// What a run of a call list prints: the reply of each call in one form for all of them, and the state.
#![tactic(auto)]

use cycles::Census;
use tables::EdgeId;

mod entries;
mod floats;
mod replies;
mod show;

pub use floats::float_bits;
pub use replies::{say_holes, say_reply, say_rings};
pub use show::show_state;

// The reply of a call that was not refused.
#[derive(Clone, Copy)]
pub enum Reply {
    Created,
    New(EdgeId),
    Old(EdgeId),
    Sorted,
    WasReset,
    Dangles(u16),
    Cuts {
        count: u16,
        census: Census,
    },
    Rings {
        count: u16,
        census: Census,
        comparisons: u16,
        halves: u16,
        holes: u16,
    },
}
