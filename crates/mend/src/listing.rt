// The list of repairs: how many places of two columns differ, and five numbers for each that does.
ghost use Rattle.std.specs.Prelude.{◌≡◌, List, [], ◌∷◌, ◌++◌, ℕ, ◌+◌, ◌*◌, ◌≤◌, length, get_or};
ghost use Rattle.paper.specs.Count.{count, onto};
ghost use Rattle.owners.specs.Derived.{derived};
ghost use Rattle.mend.specs.Repairs.{rota, flag_of, Repair, differs_at, repairs, numbers};
ghost use Rattle.mend.specs.Inside.{Listed, Lists, how_many};

use owners::owner_at;
use slotset::bit::holds;

// Word k of a column; 0 where it isn't lent.
fn word_at(words: &[u64], k: usize) -> u64
    ensures { result ≡ get_or words.now k 0 }
{
    words.get(k).copied().unwrap_or(0)
}

// How many of the first n owners differ.
pub(crate) fn count_owners(n: usize, old: &[u8], new: &[u8]) -> usize
    ensures { result ≡ count n (differs_at old.now new.now) }
{
    let mut found: usize = 0;
    for k in 0..n {
        if owner_at(old, k) != owner_at(new, k) {
            found += 1;
        }
    }
    found
}

// How many of the first n words differ.
pub(crate) fn count_words(n: usize, old: &[u64], new: &[u64]) -> usize
    ensures { result ≡ count n (differs_at old.now new.now) }
{
    let mut found: usize = 0;
    for k in 0..n {
        if word_at(old, k) != word_at(new, k) {
            found += 1;
        }
    }
    found
}

// Writes one repair more, after the first `at`.
fn write_repair(at: usize, list: &mut [u64], part: u64, place: u64, old: u64, new: u64, frozen: u64)
    requires { 5 * at + 5 ≤ length list.old }
    ensures { (rs : List Repair) (first : List ℕ) → Listed rs first at list.old → Listed (rs ++ (record {
      part = part;
      place = place;
      old = old;
      new = new;
      frozen = frozen;
    } ∷ [])) first (at + 1) list.new }
{
    let i = 5 * at;
    list[i] = part;
    list[i + 1] = place;
    list[i + 2] = old;
    list[i + 3] = new;
    list[i + 4] = frozen;
}

// 1 for a slot that is frozen, else 0.
fn flag_of(frozen: &[u64], k: usize) -> u64
    ensures { result ≡ flag_of frozen.now 0 k }
{
    u64::from(holds(frozen, 0, k))
}

// Lists the first n owners that differ, after the first `at` repairs; how many are listed then.
pub(crate) fn list_owners(
    n: usize,
    frozen: &[u64],
    old: &[u8],
    new: &[u8],
    at: usize,
    list: &mut [u64],
) -> usize
    requires { 5 * (at + count n (differs_at old.now new.now)) ≤ length list.old }
    ensures { Lists 0 (flag_of frozen.now 0) n old.now new.now at result list.old list.new }
{
    let mut done = at;
    for k in 0..n {
        let was = owner_at(old, k);
        let is = owner_at(new, k);
        if was != is {
            write_repair(
                done,
                list,
                0,
                k as u64,
                u64::from(was),
                u64::from(is),
                flag_of(frozen, k),
            );
            done += 1;
        }
    }
    done
}

// Lists the first n words that differ, after the first `at` repairs; how many are listed then.
pub(crate) fn list_words(
    part: u64,
    n: usize,
    old: &[u64],
    new: &[u64],
    at: usize,
    list: &mut [u64],
) -> usize
    requires { 5 * (at + count n (differs_at old.now new.now)) ≤ length list.old }
    ensures { Lists part (λ _. 0) n old.now new.now at result list.old list.new }
{
    let mut done = at;
    for k in 0..n {
        let was = word_at(old, k);
        let is = word_at(new, k);
        if was != is {
            write_repair(done, list, part, k as u64, was, is, 0);
            done += 1;
        }
    }
    done
}

// How many repairs it takes to make what is new of what was found.
pub(crate) fn count_repairs(
    people: usize,
    slots: usize,
    owners: &[u8],
    sets: &[u64],
    minutes: &[u64],
    totals: &[u64],
    new_owners: &[u8],
    new_sets: &[u64],
    new_minutes: &[u64],
    new_totals: &[u64],
) -> usize
    requires { (people ≤ 32) × (slots ≤ 1024) }
    ensures { result ≡ how_many people slots (rota owners.now (derived sets.now minutes.now totals.now))
        (rota new_owners.now (derived new_sets.now new_minutes.now new_totals.now)) }
{
    count_owners(slots, owners, new_owners)
        + count_words(16 * people, sets, new_sets)
        + count_words(people, minutes, new_minutes)
        + count_words(2, totals, new_totals)
}

// Lists these repairs, part by part.
pub(crate) fn list_repairs(
    people: usize,
    slots: usize,
    frozen: &[u64],
    owners: &[u8],
    sets: &[u64],
    minutes: &[u64],
    totals: &[u64],
    new_owners: &[u8],
    new_sets: &[u64],
    new_minutes: &[u64],
    new_totals: &[u64],
    list: &mut [u64],
)
    requires { (people ≤ 32) × (slots ≤ 1024) × (5 * how_many people slots (rota owners.now (derived sets.now minutes.now totals.now))
        (rota new_owners.now (derived new_sets.now new_minutes.now new_totals.now)) ≤ length list.old) }
    ensures { list.new ≡ onto (numbers (repairs people slots frozen.now (rota owners.now (derived sets.now minutes.now totals.now))
        (rota new_owners.now (derived new_sets.now new_minutes.now new_totals.now)))) list.old }
{
    let n = list_owners(slots, frozen, owners, new_owners, 0, list);
    let n = list_words(1, 16 * people, sets, new_sets, n, list);
    let n = list_words(2, people, minutes, new_minutes, n, list);
    list_words(3, 2, totals, new_totals, n, list);
}
