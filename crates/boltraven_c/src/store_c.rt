// A store of settings. Settings come as their six numbers, and are handed back through six addresses.
ghost use Rattle.std.specs.Prelude.{◌≡◌};
ghost use Rattle.store.specs.Outcome.{count_is, save_is, ask_is};
ghost use Rattle.paper.specs.Rows.{answer_refusal};
ghost use Rattle.boltraven_c.specs.Numbers.{plain_number};
ghost use Rattle.boltraven_c.specs.Units.{settings_of};
ghost use Rattle.boltraven_c.specs.Store.{saved_number, saved_used, asked_number, asked_figure};

use crate::answers::plain_number;
use crate::refused;
use store::Asked;
use units::Settings;

// How many settings records the area has.
#[unsafe(no_mangle)]
pub extern "C" fn boltraven_count_settings(area: &[u8], used: usize) -> u64
    ensures { result ≡ plain_number (count_is area.now used) }
{
    plain_number(store::count(area, used))
}

// Settings saved as one record more: its number, and the used length with it.
#[unsafe(no_mangle)]
pub extern "C" fn boltraven_save_settings(
    area: &mut [u8],
    used: usize,
    fairness: u8,
    lock: u8,
    boundary: u8,
    edition: u8,
    value: u16,
    days: u16,
    number: &mut u64,
    new_used: &mut u64,
) -> u8
    ensures value { result ≡ answer_refusal (save_is area.old used (settings_of fairness lock boundary edition value days)).answer }
    ensures area_after { area.new ≡ (save_is area.old used (settings_of fairness lock boundary edition value days)).area }
    ensures number_after { number.new ≡ saved_number number.old
        (save_is area.old used (settings_of fairness lock boundary edition value days)).answer }
    ensures new_used_after { new_used.new ≡ saved_used new_used.old
        (save_is area.old used (settings_of fairness lock boundary edition value days)).answer }
{
    let settings = Settings {
        fairness,
        lock,
        boundary,
        edition,
        value,
        days,
    };
    match store::save(area, used, settings) {
        Ok(saved) => {
            *number = saved.number;
            *new_used = saved.used;
            0
        }
        Err(n) => n,
    }
}

// The settings of the record of a number: 0 with their six figures, or 1 for a record that a newer writer kept.
#[unsafe(no_mangle)]
pub extern "C" fn boltraven_ask_settings(
    area: &[u8],
    used: usize,
    number: usize,
    fairness: &mut u8,
    lock: &mut u8,
    boundary: &mut u8,
    edition: &mut u8,
    value: &mut u16,
    days: &mut u16,
) -> u64
    ensures value { result ≡ asked_number (ask_is area.now used number) }
    ensures fairness_after { fairness.new ≡ asked_figure (λ s. s.fairness) fairness.old (ask_is area.now used number) }
    ensures lock_after { lock.new ≡ asked_figure (λ s. s.lock) lock.old (ask_is area.now used number) }
    ensures boundary_after { boundary.new ≡ asked_figure (λ s. s.boundary) boundary.old (ask_is area.now used number) }
    ensures edition_after { edition.new ≡ asked_figure (λ s. s.edition) edition.old (ask_is area.now used number) }
    ensures value_after { value.new ≡ asked_figure (λ s. s.value) value.old (ask_is area.now used number) }
    ensures days_after { days.new ≡ asked_figure (λ s. s.days) days.old (ask_is area.now used number) }
{
    match store::ask(area, used, number) {
        Ok(Asked::Is(s)) => {
            *fairness = s.fairness;
            *lock = s.lock;
            *boundary = s.boundary;
            *edition = s.edition;
            *value = s.value;
            *days = s.days;
            0
        }
        Ok(Asked::Newer) => 1,
        Err(n) => refused(n),
    }
}
