// Saving settings, asking for them by number, and counting the records.
ghost use Rattle.std.specs.Prelude.{◌≡◌, true, cond, leb, length, take, Ok, Err};
ghost use Rattle.paper.specs.Rows.{refusal_of};
ghost use Rattle.units.specs.Settings.{settings_ok};
ghost use Rattle.store.specs.Layout.{count_in};
ghost use Rattle.store.specs.Outcome.{layout_ok, room_ok, save_tests, ask_tests};
ghost use Rattle.store.specs.Outcome.{figures_ok, known_ok, answer_of, count_is, save_is, ask_is, SavesAs};

use crate::figures::{body_of, kept_in};
use crate::walk::{used_part, walk};
use crate::{Asked, Kept, RECORDS_MOST, Saved};
use paper::Refusal;
use units::Settings;

// How many right records the used bytes open with; 13 where their layout isn't kept. A layout of which bytes are missing isn't judged.
fn laid_count(area: &[u8], used: usize) -> Result<usize, u8>
    ensures { result ≡ cond (layout_ok area.now used) (Ok (count_in (take used area.now))) (Err 13) }
{
    let s = used_part(area, used);
    let w = walk(s, RECORDS_MOST);
    if area.len() < used || w.end == s.len() {
        return Ok(w.count);
    }
    Err(13)
}

// Whether there is room for a record of settings more.
fn room_ok(area: &[u8], used: usize, count: usize) -> bool
    ensures { result ≡ room_ok count used (length area.now) }
{
    if area.len() < 12 {
        return false;
    }
    if area.len() - 12 < used {
        return false;
    }
    count < RECORDS_MOST
}

// Whether figures pass rule 7; a newer record and an unknown number have none.
fn figures_ok(kept: Kept) -> bool
    ensures { result ≡ figures_ok kept }
{
    match kept {
        Kept::Figures(s) => units::settings_ok(s),
        Kept::Newer => true,
        Kept::Unknown => true,
    }
}

// Whether a number stands for a record.
fn known_ok(kept: Kept) -> bool
    ensures { result ≡ known_ok kept }
{
    match kept {
        Kept::Figures(_) => true,
        Kept::Newer => true,
        Kept::Unknown => false,
    }
}

// The answer where nothing is refused.
fn answer_of(kept: Kept) -> Result<Asked, u8>
    ensures { result ≡ answer_of kept }
{
    match kept {
        Kept::Figures(s) => Ok(Asked::Is(s)),
        Kept::Newer => Ok(Asked::Newer),
        Kept::Unknown => Err(11),
    }
}

// What stands against saving where the layout is kept: 2, 5, 7.
fn save_refusal(held: bool, room: bool, s: Settings) -> Refusal
    ensures { result ≡ refusal_of (save_tests true held room (settings_ok s)) }
{
    let f = paper::check(paper::accepted(), held, 2);
    let f = paper::check(f, room, 5);
    paper::check(f, units::settings_ok(s), 7)
}

// What stands against asking for a record where the layout is kept: 2, 7, 11.
fn ask_refusal(held: bool, kept: Kept) -> Refusal
    ensures { result ≡ refusal_of (ask_tests true held kept) }
{
    let f = paper::check(paper::accepted(), held, 2);
    let f = paper::check(f, figures_ok(kept), 7);
    paper::check(f, known_ok(kept), 11)
}

// How many records the store has. Refusals 13, 2.
pub fn count(area: &[u8], used: usize) -> Result<usize, u8>
    ensures { result ≡ count_is area.now used }
{
    let count = laid_count(area, used)?;
    if used <= area.len() {
        Ok(count)
    } else {
        Err(2)
    }
}

// Settings as one record more, written at the used length. Refusals 13, 2, 5, 7.
pub fn save(area: &mut [u8], used: usize, settings: Settings) -> Result<Saved, u8>
    ensures { SavesAs (save_is area.old used settings) result area.new }
{
    let count = laid_count(area, used)?;
    let room = room_ok(area, used, count);
    let n = save_refusal(used <= area.len(), room, settings).number;
    if n == 0 {
        let body = body_of(settings);
        records::put_record(area, used, 33, &body);
        Ok(Saved {
            number: (count + 1) as u64,
            used: (used + 12) as u64,
        })
    } else {
        Err(n)
    }
}

// The settings of the record of a number. Refusals 13, 2, 7, 11.
pub fn ask(area: &[u8], used: usize, number: usize) -> Result<Asked, u8>
    ensures { result ≡ ask_is area.now used number }
{
    let count = laid_count(area, used)?;
    let kept = kept_in(area, used, count, number);
    let n = ask_refusal(used <= area.len(), kept).number;
    if n == 0 { answer_of(kept) } else { Err(n) }
}
