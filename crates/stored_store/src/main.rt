// Replays stored stores: reads areas, each with what is due of it, from standard input, asks the store, and tells how many answers it compared
// and how many differ. `oracle/store` writes them (oracle/src/stores.rs has their layout).
#![tactic(auto)]

ghost use Rattle.std.specs.Prelude.{◌<◌};

use std::io;
use store::Asked;
use stored::{Tally, half, plus, raw, same_raws, short};
use units::Settings;

// A stored area begins with these bytes; the area follows, and then the area after settings were saved.
const HEAD: usize = 32;

// A refusal, in a record, as its number above this one.
const REFUSED: usize = 1000;

// The six figures at a place of the head.
fn figures(head: &[u8], at: usize) -> Settings
    requires { at < 1000 }
{
    Settings {
        fairness: raw(head, at),
        lock: raw(head, at + 1),
        boundary: raw(head, at + 2),
        edition: raw(head, at + 3),
        value: short(head, at + 4),
        days: short(head, at + 6),
    }
}

// Whether two settings are the same.
fn same_figures(a: Settings, b: Settings) -> bool {
    let first = a.fairness == b.fairness && a.lock == b.lock && a.boundary == b.boundary;
    first && a.edition == b.edition && a.value == b.value && a.days == b.days
}

// Whether the store has as many records as are due, or is refused as is due.
fn counted(head: &[u8], area: &[u8]) -> bool {
    stored::counted(store::count(area, half(head, 2)), REFUSED) == half(head, 6)
}

// Whether the number that is asked for answers as is due.
fn asked(head: &[u8], area: &[u8]) -> bool {
    let due = half(head, 8);
    match store::ask(area, half(head, 2), half(head, 4)) {
        Ok(Asked::Is(s)) => due == 0 && same_figures(s, figures(head, 10)),
        Ok(Asked::Newer) => due == 1,
        Err(n) => plus(REFUSED, usize::from(n)) == due,
    }
}

// Whether settings are saved as is due, and leave the area that is due.
fn saved(head: &[u8], area: &mut [u8], after: &[u8]) -> bool {
    let due = half(head, 26);
    let answer = store::save(area, half(head, 2), figures(head, 18));
    let same = same_raws(area, after);
    match answer {
        Ok(s) => due == 0
            && s.number == half(head, 28) as u64
            && s.used == half(head, 30) as u64
            && same,
        Err(n) => plus(REFUSED, usize::from(n)) == due && same,
    }
}

// Compares the answers of a record.
fn compared(tally: Tally, head: &[u8], area: &mut [u8], after: &[u8]) -> Tally {
    let t = tally.with(counted(head, area));
    let t = t.with(asked(head, area));
    t.with(saved(head, area, after))
}

fn main(rt: HostRuntime) -> io::Result<()> {
    let t = stored::compare_bodies(&mut rt.stdin(), &mut [0u8; HEAD], 0, compared)?;
    stored::print(&rt, t, "")
}
