// A damaged rota mended: owners that can't stay are cleared, then units without one owner, and the rest is worked out anew; with a list of
// every repair.
#![tactic(auto)]

mod clearing;
mod listing;
mod mending;

pub use mending::mend;
