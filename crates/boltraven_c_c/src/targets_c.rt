// Each person's target.
ghost use Rattle.std.specs.Prelude.{◌≡◌};
ghost use Rattle.targets.specs.Outcome.{given, compute_targets};

// Each person's target, in out, and 0; or the number of the refusal, with out as it was.
#[unsafe(no_mangle)]
pub extern "C" fn boltraven_compute_targets(
    people: usize,
    slots: usize,
    fairness: u8,
    edition: u8,
    starts: &[u32],
    ends: &[u32],
    avail: &[u64],
    capacities: &[f64],
    priors: &[u32],
    out: &mut [i64],
) -> u8
    ensures value { result ≡ (compute_targets
        (given people slots starts.now ends.now avail.now capacities.now
        priors.now fairness edition) out.old).number }
    ensures out_after { out.new ≡ (compute_targets
        (given people slots starts.now ends.now avail.now capacities.now
        priors.now fairness edition) out.old).out }
{
    boltraven_c::targets_c::boltraven_compute_targets(
        people, slots, fairness, edition, starts, ends, avail, capacities, priors, out,
    )
}
