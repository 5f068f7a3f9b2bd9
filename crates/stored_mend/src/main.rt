// Replays stored repairs of damaged rotas: reads records from standard input, mends each rota, and tells how many answers it compared
// and how
// many differ. `oracle/store` writes the records (oracle/src/stored_mending.rs has their layout).
#![tactic(auto)]

use std::io;
use stored::{
    Tally, at_most, counted, half, plus, quads, raws, rows, same_raws, same_words, shorts, word,
    words,
};

// A record: counts and the list's room, slots, units, who can cover which, frozen slots, the rota as it was found; how many repairs are
// due,
// the rota then, and the list.
const RECORD: usize = 1032;

const ROOM_AT: usize = 6;

const STARTS_AT: usize = 8;

const ENDS_AT: usize = 40;

const UNITS_AT: usize = 72;

const ABLE_AT: usize = 88;

const FROZEN_AT: usize = 120;

const FOUND_AT: usize = 128;

const REPAIRS_AT: usize = 216;

const DUE_AT: usize = 224;

const LIST_AT: usize = 312;

// Where sets, minutes and totals stand after the owners of a rota.
const SETS: usize = 8;

const MINUTES: usize = 40;

const TOTALS: usize = 72;

// What is added to a refusal's number.
const REFUSED: usize = 60000;

// A rota, the list, and what was answered.
#[derive(Clone, Copy)]
struct After {
    number: Result<usize, u8>,
    owners: [u8; 8],
    sets: [u64; 64],
    minutes: [u64; 4],
    totals: [u64; 2],
    list: [u64; 90],
}

// The owners, sets, minutes and totals of a rota at an index.
fn owners_at(b: &[u8], at: usize) -> [u8; 8] {
    let mut out = [0u8; 8];
    raws(b, at, &mut out);
    out
}

fn sets_at(b: &[u8], at: usize) -> [u64; 64] {
    let mut out = [0u64; 64];
    rows(b, plus(at, SETS), &mut out);
    out
}

fn minutes_at(b: &[u8], at: usize) -> [u64; 4] {
    let mut out = [0u64; 4];
    words(b, plus(at, MINUTES), &mut out);
    out
}

fn totals_at(b: &[u8], at: usize) -> [u64; 2] {
    let mut out = [0u64; 2];
    words(b, plus(at, TOTALS), &mut out);
    out
}

// The same arrays, handed back: what a function hands back has its length known where it is lent on.
fn owners_again(a: [u8; 8]) -> [u8; 8] {
    a
}

fn sets_again(a: [u64; 64]) -> [u64; 64] {
    a
}

fn minutes_again(a: [u64; 4]) -> [u64; 4] {
    a
}

fn totals_again(a: [u64; 2]) -> [u64; 2] {
    a
}

fn list_again(a: [u64; 90]) -> [u64; 90] {
    a
}

// Mends a rota with the slots, units, availability and flags of a record.
fn mend_into(
    b: &[u8],
    who: &mut [u8],
    own: &mut [u64],
    worked: &mut [u64],
    open: &mut [u64],
    list: &mut [u64],
) -> Result<usize, u8> {
    let mut starts = [0u32; 8];
    let mut ends = [0u32; 8];
    let mut units = [0u16; 8];
    let mut avail = [0u64; 64];
    let mut frozen = [0u64; 16];
    quads(b, STARTS_AT, &mut starts);
    quads(b, ENDS_AT, &mut ends);
    shorts(b, UNITS_AT, &mut units);
    rows(b, ABLE_AT, &mut avail);
    rows(b, FROZEN_AT, &mut frozen);
    mend::mend(
        half(b, 0),
        half(b, 2),
        half(b, 4),
        &starts,
        &ends,
        &avail,
        &units,
        &frozen,
        who,
        own,
        worked,
        open,
        list,
    )
}

// The same, with as much of a list as the room says.
fn mend_with(
    b: &[u8],
    who: &mut [u8],
    own: &mut [u64],
    worked: &mut [u64],
    open: &mut [u64],
    list: &mut [u64],
    room: usize,
) -> Result<usize, u8> {
    let k = at_most(room, list.len());
    mend_into(b, who, own, worked, open, &mut list[..k])
}

// The rota of a record mended; the list was filled with sevens.
fn mended(b: &[u8]) -> After {
    let mut who = owners_at(b, FOUND_AT);
    let mut own = sets_at(b, FOUND_AT);
    let mut worked = minutes_at(b, FOUND_AT);
    let mut open = totals_at(b, FOUND_AT);
    let mut list = [7u64; 90];
    let room = half(b, ROOM_AT);
    let number = mend_with(
        b,
        &mut who,
        &mut own,
        &mut worked,
        &mut open,
        &mut list,
        room,
    );
    After {
        number,
        owners: who,
        sets: own,
        minutes: worked,
        totals: open,
        list,
    }
}

// Whether the answer is the one that is due.
fn is_due(number: Result<usize, u8>, b: &[u8]) -> bool {
    counted(number, REFUSED) == half(b, REPAIRS_AT)
}

// Whether the list is the one that is due.
fn is_list(list: &[u64], b: &[u8]) -> bool {
    list.iter()
        .enumerate()
        .all(|(k, repair)| *repair == word(b, plus(LIST_AT, 8 * k)))
}

// Whether no repair was made.
fn is_none(number: Result<usize, u8>) -> bool {
    number.is_ok_and(|n| n == 0)
}

// Whether a rota that was mended needs no repair, for which no list is needed; one that was refused isn't asked.
fn is_mended(
    b: &[u8],
    number: Result<usize, u8>,
    owners: [u8; 8],
    sets: [u64; 64],
    minutes: [u64; 4],
    totals: [u64; 2],
) -> bool {
    match number {
        Ok(_) => {
            let mut who = owners_again(owners);
            let mut own = sets_again(sets);
            let mut worked = minutes_again(minutes);
            let mut open = totals_again(totals);
            let mut list = [0u64; 1];
            is_none(mend_with(b, &mut who, &mut own, &mut worked, &mut open, &mut list, 0))
        }
        Err(_) => true,
    }
}

// Compares a record: the answer, the four columns, the list, and that nothing is left to repair.
fn compared(tally: Tally, b: &[u8]) -> Tally {
    let m = mended(b);
    let number = m.number;
    let owners = m.owners;
    let sets = m.sets;
    let minutes = m.minutes;
    let totals = m.totals;
    let list = m.list;
    let t = tally.with(is_due(number, b));
    let t = t.with(same_raws(&owners_again(owners), &owners_at(b, DUE_AT)));
    let t = t.with(same_words(&sets_again(sets), &sets_at(b, DUE_AT)));
    let t = t.with(same_words(&minutes_again(minutes), &minutes_at(b, DUE_AT)));
    let t = t.with(same_words(&totals_again(totals), &totals_at(b, DUE_AT)));
    let t = t.with(is_list(&list_again(list), b));
    t.with(is_mended(b, number, owners, sets, minutes, totals))
}

fn main(rt: HostRuntime) -> io::Result<()> {
    let t = stored::compare_each(&mut rt.stdin(), &mut [0u8; RECORD], compared)?;
    stored::print(&rt, t, "")
}
