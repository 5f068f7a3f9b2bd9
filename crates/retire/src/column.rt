// Owners moved to the front: those of a rota that retires, and of a published column beside it.
ghost use Rattle.std.specs.Prelude.{◌≡◌, ◌+◌, ◌-◌, ◌≤◌, length};
ghost use Rattle.paper.specs.Limits.{nobody, number_of};
ghost use Rattle.paper.specs.Rows.{refusal_of};
ghost use Rattle.retire.specs.Rolled.{rolled_column};
ghost use Rattle.retire.specs.Column.{column_row, retire_column};

use paper::Refusal;

// Owners after the first `gone` went and `kept` are left; nobody owns the slots behind them, up to the count.
pub(crate) fn roll_owners(gone: usize, kept: usize, count: usize, owners: &mut [u8])
    requires { (gone + kept ≤ length owners.old) × (count ≤ length owners.old) }
    ensures { owners.new ≡ rolled_column gone kept count (λ _. nobody) owners.old }
{
    let rest = kept.min(count);
    owners.copy_within(gone..gone + rest, 0);
    owners[rest..count].fill(paper::NOBODY);
}

// What stands against moving a published column: 1 or 2.
fn column_refusal(before: usize, gone: usize, count: usize, column: &[u8]) -> Refusal
    ensures { result ≡ refusal_of (column_row before gone count column.now) }
{
    let kept = before.saturating_sub(gone);
    let f = paper::check_slots(paper::accepted(), before);
    let f = paper::check_slots(f, count);
    let f = paper::check(f, gone <= before, 1);
    let f = paper::check(f, kept <= count, 1);
    let f = paper::check(f, before <= column.len(), 2);
    paper::check(f, count <= column.len(), 2)
}

// A published column beside a rota that retired: `before` slots of which `gone` went, and `count` slots now. The rest comes to the front,
// nobody owns what is new, and entries past the count stay. Refusals 1, 2.
pub fn retire_column(before: usize, gone: usize, count: usize, column: &mut [u8]) -> u8
    ensures { (result ≡ number_of (column_row before gone count column.old))
        × (column.new ≡ retire_column before gone count column.old) }
{
    let number = column_refusal(before, gone, count, column).number;
    if number != 0 {
        return number;
    }
    roll_owners(gone, before - gone, count, column);
    0
}
