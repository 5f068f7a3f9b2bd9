// Replays stored ways back: reads records from standard input, asks for the way, plays its draws, and tells how many answers it compared and
// how many differ. `oracle/store` writes the records (oracle/src/stored_ways.rs has their layout).
#![tactic(auto)]

use paper::Refusal;
use std::io;
use stored::{Tally, half, plus, quad, quads, raws, same_raws, same_shorts, shorts};
use wayback::Way;

// A record: people, slots, units; the slots; where units begin; who can cover which slot; frozen slots; the remembered owners and those as
// they are; what is due: the answer, the three columns, the answers of a play, and what nobody owns after it, in minutes and in slots.
const RECORD: usize = 338;

const STARTS_AT: usize = 6;

const ENDS_AT: usize = 70;

const BEGINS_AT: usize = 134;

const ABLE_AT: usize = 166;

const FROZEN_AT: usize = 174;

const REMEMBERED_AT: usize = 176;

const OWNERS_AT: usize = 192;

const ANSWER_AT: usize = 208;

const DRAWS_AT: usize = 218;

const FIRSTS_AT: usize = 250;

const SECONDS_AT: usize = 282;

const PLAYED_AT: usize = 314;

const TOTALS_AT: usize = 330;

// Everybody's sets and minutes, and the totals.
#[derive(Clone, Copy)]
struct Figures {
    sets: [u64; 64],
    minutes: [u64; 4],
    totals: [u64; 2],
}

// A way, and the columns that it was written into.
#[derive(Clone, Copy)]
struct Asked {
    way: Result<Way, Refusal>,
    draws: [u16; 16],
    firsts: [u16; 16],
    seconds: [u16; 16],
}

// Sixteen u32 at an index.
fn times(b: &[u8], at: usize) -> [u32; 16] {
    let mut out = [0u32; 16];
    quads(b, at, &mut out);
    out
}

// Sixteen u16 at an index.
fn column(b: &[u8], at: usize) -> [u16; 16] {
    let mut out = [0u16; 16];
    shorts(b, at, &mut out);
    out
}

// Sixteen bytes at an index.
fn bytes(b: &[u8], at: usize) -> [u8; 16] {
    let mut out = [0u8; 16];
    raws(b, at, &mut out);
    out
}

// Four people's sets, a u16 each, as sets of 16 words.
fn sets(b: &[u8], at: usize) -> [u64; 64] {
    let mut out = [0u64; 64];
    out[0] = half(b, at) as u64;
    out[16] = half(b, plus(at, 2)) as u64;
    out[32] = half(b, plus(at, 4)) as u64;
    out[48] = half(b, plus(at, 6)) as u64;
    out
}

// The flags, as a set of 16 words.
fn flags(b: &[u8]) -> [u64; 16] {
    let mut out = [0u64; 16];
    out[0] = half(b, FROZEN_AT) as u64;
    out
}

// The same arrays, handed back: what a function hands back has its length known where it is lent on.
fn sets_again(a: [u64; 64]) -> [u64; 64] {
    a
}

fn minutes_again(a: [u64; 4]) -> [u64; 4] {
    a
}

fn totals_again(a: [u64; 2]) -> [u64; 2] {
    a
}

fn column_again(a: [u16; 16]) -> [u16; 16] {
    a
}

// Everybody's sets and minutes, and the totals, made from the owners as they are.
fn made(b: &[u8]) -> Figures {
    let starts = times(b, STARTS_AT);
    let ends = times(b, ENDS_AT);
    let able = sets(b, ABLE_AT);
    let who = bytes(b, OWNERS_AT);
    let mut own = [0u64; 64];
    let mut worked = [0u64; 4];
    let mut open = [0u64; 2];
    owners::from_slots(
        half(b, 0),
        half(b, 2),
        &starts,
        &ends,
        &able,
        &who,
        &mut own,
        &mut worked,
        &mut open,
    );
    Figures {
        sets: own,
        minutes: worked,
        totals: open,
    }
}

// Asks for the way back of a record, with sets, minutes and totals, into three columns.
fn way_into(
    b: &[u8],
    own: &[u64],
    worked: &[u64],
    open: &[u64],
    draws: &mut [u16],
    firsts: &mut [u16],
    seconds: &mut [u16],
) -> Result<Way, Refusal> {
    let starts = times(b, STARTS_AT);
    let ends = times(b, ENDS_AT);
    let able = sets(b, ABLE_AT);
    let begins = column(b, BEGINS_AT);
    let frozen = flags(b);
    let remembered = bytes(b, REMEMBERED_AT);
    let who = bytes(b, OWNERS_AT);
    wayback::way_back(
        half(b, 0),
        half(b, 2),
        half(b, 4),
        &starts,
        &ends,
        &able,
        &begins,
        &frozen,
        &remembered,
        &who,
        own,
        worked,
        open,
        draws,
        firsts,
        seconds,
    )
}

// The way back of a record; its columns were filled with sevens.
fn ask(b: &[u8]) -> Asked {
    let m = made(b);
    let held = m.sets;
    let done = m.minutes;
    let left = m.totals;
    let own = sets_again(held);
    let worked = minutes_again(done);
    let open = totals_again(left);
    let mut draws = [7u16; 16];
    let mut firsts = [7u16; 16];
    let mut seconds = [7u16; 16];
    let way = way_into(
        b,
        &own,
        &worked,
        &open,
        &mut draws,
        &mut firsts,
        &mut seconds,
    );
    Asked {
        way,
        draws,
        firsts,
        seconds,
    }
}

// Whether the answer is of this kind, with this number beside it.
fn is_told(b: &[u8], kind: usize, told: usize) -> bool {
    kind == half(b, ANSWER_AT) && told == half(b, plus(ANSWER_AT, 2))
}

// Whether a refusal is the one that is due.
fn is_refusal(got: Refusal, b: &[u8]) -> bool {
    let named = got.number as usize == half(b, plus(ANSWER_AT, 4))
        && got.part as usize == half(b, plus(ANSWER_AT, 6));
    named && got.place == half(b, plus(ANSWER_AT, 8)) && got.second == 0
}

// Whether the way is the one that is due.
fn is_way(got: Result<Way, Refusal>, b: &[u8]) -> bool {
    match got {
        Ok(Way::Draws(n)) => is_told(b, 0, n),
        Ok(Way::NoWay(unit)) => is_told(b, 1, unit),
        Err(refusal) => is_told(b, 2, 0) && is_refusal(refusal, b),
    }
}

// Whether a column is the one that is due.
fn is_column(got: [u16; 16], b: &[u8], at: usize) -> bool {
    same_shorts(&got, &column(b, at))
}

// Plays the draws of columns on a rota.
fn play_on(
    b: &[u8],
    count: usize,
    draws: &[u16],
    firsts: &[u16],
    seconds: &[u16],
    who: &mut [u8],
    own: &mut [u64],
    worked: &mut [u64],
    open: &mut [u64],
    said: &mut [u8],
) -> Refusal {
    let starts = times(b, STARTS_AT);
    let ends = times(b, ENDS_AT);
    let able = sets(b, ABLE_AT);
    let begins = column(b, BEGINS_AT);
    let frozen = flags(b);
    rota::play::play(
        half(b, 0),
        half(b, 2),
        half(b, 4),
        count,
        &starts,
        &ends,
        &able,
        &begins,
        &frozen,
        draws,
        firsts,
        seconds,
        who,
        own,
        worked,
        open,
        said,
    )
}

// Whether the totals are those that are due.
fn is_totals(got: [u64; 2], b: &[u8]) -> bool {
    got[0] == quad(b, TOTALS_AT) as u64 && got[1] == quad(b, plus(TOTALS_AT, 4)) as u64
}

// Whether a play was accepted, all of its draws acted, and the remembered owners and their totals are back.
fn is_back(refusal: Refusal, who: [u8; 16], open: [u64; 2], said: [u8; 16], b: &[u8]) -> bool {
    refusal.number == 0
        && same_raws(&who, &bytes(b, REMEMBERED_AT))
        && is_totals(open, b)
        && same_raws(&said, &bytes(b, PLAYED_AT))
}

// Whether the draws that were written, played, all act and bring the remembered owners back.
fn leads(b: &[u8], a: Asked, count: usize) -> bool {
    let m = made(b);
    let held = m.sets;
    let done = m.minutes;
    let left = m.totals;
    let kinds = a.draws;
    let units = a.firsts;
    let places = a.seconds;
    let draws = column_again(kinds);
    let firsts = column_again(units);
    let seconds = column_again(places);
    let mut who = bytes(b, OWNERS_AT);
    let mut own = sets_again(held);
    let mut worked = minutes_again(done);
    let mut open = totals_again(left);
    let mut said = [9u8; 16];
    let refusal = play_on(
        b,
        count,
        &draws,
        &firsts,
        &seconds,
        &mut who,
        &mut own,
        &mut worked,
        &mut open,
        &mut said,
    );
    is_back(refusal, who, open, said, b)
}

// One more where there are draws: what they lead to.
fn with_play(tally: Tally, b: &[u8], a: Asked) -> Tally {
    let way = a.way;
    match way {
        Ok(Way::Draws(n)) => tally.with(leads(b, a, n)),
        Ok(Way::NoWay(_)) | Err(_) => tally,
    }
}

// Compares a record: the answer, the three columns, and where there are draws what they lead to.
fn compared(tally: Tally, b: &[u8]) -> Tally {
    let a = ask(b);
    let way = a.way;
    let draws = a.draws;
    let firsts = a.firsts;
    let seconds = a.seconds;
    let t = tally.with(is_way(way, b));
    let t = t.with(is_column(draws, b, DRAWS_AT));
    let t = t.with(is_column(firsts, b, FIRSTS_AT));
    let t = t.with(is_column(seconds, b, SECONDS_AT));
    with_play(t, b, a)
}

fn main(rt: HostRuntime) -> io::Result<()> {
    let t = stored::compare_each(&mut rt.stdin(), &mut [0u8; RECORD], compared)?;
    stored::print(&rt, t, "")
}
