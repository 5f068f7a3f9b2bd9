// The static library for C and Rust to link: each function of `boltraven_c` under its own name, with its clauses.
#![tactic(auto)]

mod columns_c;
mod draws_c;
mod job_c;
mod mend_c;
mod owners_c;
mod recording_c;
mod replay_c;
mod retire_c;
mod rota_c;
mod runs_c;
mod set_c;
mod slots_c;
mod slotset_c;
mod store_c;
mod targets_c;
mod units_c;
mod usable_c;
mod version;
mod wayback_c;
