// The minutes that go: each person's to their priors, nobody's to the retired total.
ghost use Rattle.std.specs.Prelude.{◌≡◌, ◌&&◌, ℕ, ◌+◌, ◌≤◌, ◌<◌, leb, length};
ghost use Rattle.paper.specs.Limits.{last_minute, nobody};
ghost use Rattle.paper.specs.Count.{all};
ghost use Rattle.owners.specs.Derived.{plan, portion, worked};
ghost use Rattle.retire.specs.Rolled.{entry};
ghost use Rattle.retire.specs.Going.{prior_then, retired_then, priors_then, retired_column};

// What a slot of n minutes counts for a person, or for nobody.
fn portion_of(owner: u8, person: u8, n: u32) -> u64
    ensures { (result ≡ portion owner person n) × (result ≤ 4294967295) }
{
    if owner == person { u64::from(n) } else { 0 }
}

// The minutes that a person, or nobody, owned of the first `gone` slots.
fn minutes_gone(gone: usize, starts: &[u32], ends: &[u32], owners: &[u8], person: u8) -> u64
    requires { gone ≤ 1024 }
    ensures { result ≡ worked (plan 0 gone starts.now ends.now) owners.now person }
{
    let mut total: u64 = 0;
    for k in 0..gone {
        total += portion_of(
            owners::owner_at(owners, k),
            person,
            slots::minutes_at(starts, ends, k),
        );
    }
    total
}

// Whether two numbers of minutes come to 100,000,000 at most.
fn sum_ok(a: u64, b: u64) -> bool
    ensures { result ≡ leb (a + b) last_minute }
{
    a.saturating_add(b) <= u64::from(paper::LAST_MINUTE)
}

// The retired total; 0 where it isn't lent.
fn total_of(retired: &[u64]) -> u64
    ensures { result ≡ entry retired.now 0 }
{
    retired.first().copied().unwrap_or(0)
}

// Whether nobody's prior minutes are above 100,000,000.
fn priors_ok(people: usize, priors: &[u32]) -> bool
    ensures { result ≡ all people (λ p. leb (entry priors.now p) last_minute) }
{
    for p in 0..people {
        if paper::LAST_MINUTE < slots::entry_of(priors, p) {
            return false;
        }
    }
    true
}

// Whether nobody's would be, with what they owned of the slots that go.
fn priors_then_ok(
    people: usize,
    gone: usize,
    starts: &[u32],
    ends: &[u32],
    owners: &[u8],
    priors: &[u32],
) -> bool
    requires { (people ≤ 32) × (gone ≤ 1024) }
    ensures { result ≡ all people (λ p. leb (prior_then (plan people gone starts.now ends.now) owners.now priors.now gone p) last_minute) }
{
    for p in 0..people {
        if !sum_ok(
            u64::from(slots::entry_of(priors, p)),
            minutes_gone(gone, starts, ends, owners, p as u8),
        ) {
            return false;
        }
    }
    true
}

// Prior minutes and the retired total as they are lent: none above 100,000,000.
pub(crate) fn figures_ok(people: usize, priors: &[u32], retired: &[u64]) -> bool
    ensures { result ≡ all people (λ p. leb (entry priors.now p) last_minute) && leb (entry retired.now 0) last_minute }
{
    priors_ok(people, priors) && total_of(retired) <= u64::from(paper::LAST_MINUTE)
}

// And as they would be.
pub(crate) fn figures_then_ok(
    people: usize,
    gone: usize,
    starts: &[u32],
    ends: &[u32],
    owners: &[u8],
    priors: &[u32],
    retired: &[u64],
) -> bool
    requires { (people ≤ 32) × (gone ≤ 1024) }
    ensures { result ≡ all people (λ p. leb (prior_then (plan people gone starts.now ends.now) owners.now priors.now gone p) last_minute) && leb (retired_then (plan people gone starts.now ends.now)
        owners.now retired.now gone) last_minute }
{
    let uncovered = minutes_gone(gone, starts, ends, owners, paper::NOBODY);
    priors_then_ok(people, gone, starts, ends, owners, priors)
        && sum_ok(total_of(retired), uncovered)
}

// Each person's prior minutes, with what they owned of the slots that go.
pub(crate) fn add_priors(
    people: usize,
    gone: usize,
    starts: &[u32],
    ends: &[u32],
    owners: &[u8],
    priors: &mut [u32],
)
    requires people_bound { (people ≤ 32) × (gone ≤ 1024) × (people ≤ length priors.old) }
    requires by_index { (p : ℕ) → p < people → prior_then (plan people gone starts.now ends.now) owners.now priors.old gone p ≤ last_minute }
    ensures { priors.new ≡ priors_then (plan people gone starts.now ends.now) owners.now
        priors.old gone }
{
    for p in 0..people {
        let had = u64::from(priors[p]);
        let more = minutes_gone(gone, starts, ends, owners, p as u8);
        priors[p] = (had + more) as u32;
    }
}

// The retired total, with what nobody owned of them.
pub(crate) fn add_retired(
    people: usize,
    gone: usize,
    starts: &[u32],
    ends: &[u32],
    owners: &[u8],
    retired: &mut [u64],
)
    requires gone_bound { (gone ≤ 1024) × (1 ≤ length retired.old) }
    requires gone_bound_2 { retired_then (plan people gone starts.now ends.now) owners.now retired.old gone ≤ last_minute }
    ensures { retired.new ≡ retired_column (plan people gone starts.now ends.now) owners.now retired.old gone }
{
    let more = minutes_gone(gone, starts, ends, owners, paper::NOBODY);
    retired[0] = retired[0] + more;
}
