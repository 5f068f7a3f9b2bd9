// What C and Rust call, which `boltraven_c_c` exports: numbers, flags and slices of numbers, and one slice of structs laid out as C does.
// A slice is passed as its address and its number of elements.
// Every function is total, as the one that it calls: what is promised of that one, said in numbers, is promised here.
#![tactic(auto)]

mod answers;
pub mod columns_c;
pub mod draws_c;
pub mod job_c;
pub mod mend_c;
pub mod owners_c;
pub mod recording_c;
pub mod replay_c;
pub mod retire_c;
pub mod rota_c;
pub mod runs_c;
pub mod set_c;
pub mod slots_c;
pub mod slotset_c;
pub mod store_c;
pub mod targets_c;
pub mod units_c;
pub mod usable_c;
pub mod version;
pub mod wayback_c;

ghost use Rattle.std.specs.Prelude.{◌≡◌, ◌+◌};

// What is answered where there is nothing; a refusal adds its number.
pub(crate) const NOTHING: u64 = 65536;

// A refusal's number.
pub(crate) fn refused(n: u8) -> u64
    ensures { result ≡ 65536 + n }
{
    NOTHING + n as u64
}
