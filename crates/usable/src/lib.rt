// A rota made elsewhere: whether it may be used, by five rules, or which of them it breaks first and at which slot.
#![tactic(auto)]

mod judging;
mod rules;
mod shifts;

pub use judging::may_be_used;

// The verdict: it may be used; or the first broken rule, 1 to 5, and the lowest slot at which it shows.
#[derive(Clone, Copy)]
pub enum Verdict {
    Usable,
    Broken { rule: u8, slot: usize },
}
