// Runs in lists: a person's, and everybody's in one call.
ghost use Rattle.std.specs.Prelude.{◌≡◌};
ghost use Rattle.slotset.specs.Lists.{every_run_of};
ghost use Rattle.runs.specs.Listed.{all_runs_of};
ghost use Rattle.boltraven_c.specs.Numbers.{plain_number};

// All runs of a person, ascending: the first slot of each in one column, the last in the other, and how many there are.
#[unsafe(no_mangle)]
pub extern "C" fn boltraven_all_runs(
    people: usize,
    len: usize,
    words: &[u64],
    firsts: &mut [u16],
    lasts: &mut [u16],
    person: usize,
) -> u64
    ensures value { result ≡ plain_number (all_runs_of words.now people person len firsts.old lasts.old).answer }
    ensures firsts_after { firsts.new
        ≡ (all_runs_of words.now people person len firsts.old lasts.old).firsts }
    ensures lasts_after { lasts.new
        ≡ (all_runs_of words.now people person len firsts.old lasts.old).lasts }
{
    boltraven_c::runs_c::boltraven_all_runs(people, len, words, firsts, lasts, person)
}

// Everybody's runs, person by person: how many each has, the first and the last slot of each, and how many there are.
#[unsafe(no_mangle)]
pub extern "C" fn boltraven_every_run(
    people: usize,
    len: usize,
    words: &[u64],
    counts: &mut [u16],
    firsts: &mut [u16],
    lasts: &mut [u16],
) -> u64
    ensures value { result ≡ plain_number
        (every_run_of words.now people len counts.old firsts.old lasts.old).answer }
    ensures counts_after { counts.new
        ≡ (every_run_of words.now people len counts.old firsts.old lasts.old).counts }
    ensures firsts_after { firsts.new
        ≡ (every_run_of words.now people len counts.old firsts.old lasts.old).firsts }
    ensures lasts_after { lasts.new
        ≡ (every_run_of words.now people len counts.old firsts.old lasts.old).lasts }
{
    boltraven_c::runs_c::boltraven_every_run(people, len, words, counts, firsts, lasts)
}
