// The listing, written into a lent buffer from its front. Each function takes the place to write at and returns the next.
ghost use Rattle.std.specs.Prelude.{◌≡◌, [], ◌∷◌, ◌++◌, ℕ, ◌+◌, ◌≤◌, ◌<◌, ◌^◌, pos, length, get_or};
ghost use Rattle.std.specs.Int.Signed.{mag};
ghost use Rattle.job.specs.Listing.{digits, signed, owner_text, answer_letter, head_text, slot_line, person_line, draw_line};
ghost use Rattle.job.specs.Listing.{lines, slot_at, person_at, draw_at};
ghost use Rattle.records.specs.Puts.{Wrote};
ghost use Rattle.job.specs.Listing.{listed, listing_of, listing_most, place_text, part_text, refusal_line};
ghost use Rattle.job.specs.Outcome.{Ends, refusal_result};

use paper::Refusal;

// One byte.
pub(crate) fn put_byte(out: &mut [u8], at: usize, byte: u8) -> usize
    requires { at < length out.old }
    ensures { Wrote (byte ∷ []) at out.old result out.new }
{
    out[at] = byte;
    at + 1
}

// The decimal digits of a number.
fn put_number(out: &mut [u8], at: usize, n: u64) -> usize
    requires { at + length (digits n) ≤ length out.old }
    ensures { Wrote (digits n) at out.old result out.new }
{
    if n < 10 {
        return put_byte(out, at, 48 + n as u8);
    }
    let next = put_number(out, at, n / 10);
    put_byte(out, next, 48 + (n % 10) as u8)
}

// A number and one byte more.
pub(crate) fn put_number_then(out: &mut [u8], at: usize, n: u64, last: u8) -> usize
    requires { at + length (digits n ++ (last ∷ [])) ≤ length out.old }
    ensures { Wrote (digits n ++ (last ∷ [])) at out.old result out.new }
{
    let next = put_number(out, at, n);
    put_byte(out, next, last)
}

// A letter, a space, a number and one byte more.
pub(crate) fn put_head(out: &mut [u8], at: usize, letter: u8, n: u64, last: u8) -> usize
    requires { at + length (head_text letter n last) ≤ length out.old }
    ensures { Wrote (head_text letter n last) at out.old result out.new }
{
    let second = put_byte(out, at, letter);
    let third = put_byte(out, second, b' ');
    put_number_then(out, third, n, last)
}

// An owner, - for nobody, and a newline.
fn put_owner(out: &mut [u8], at: usize, owner: u8) -> usize
    requires { at + length (owner_text owner ++ (10 ∷ [])) ≤ length out.old }
    ensures { Wrote (owner_text owner ++ (10 ∷ [])) at out.old result out.new }
{
    if owner == paper::NOBODY {
        let next = put_byte(out, at, b'-');
        return put_byte(out, next, b'\n');
    }
    put_number_then(out, at, owner as u64, b'\n')
}

// A number with its sign, and a newline.
fn put_signed(out: &mut [u8], at: usize, t: i64) -> usize
    requires { at + length (signed t ++ (10 ∷ [])) ≤ length out.old }
    ensures { Wrote (signed t ++ (10 ∷ [])) at out.old result out.new }
{
    let size = t.unsigned_abs();
    if t < 0 {
        let next = put_byte(out, at, b'-');
        return put_number_then(out, next, size, b'\n');
    }
    put_number_then(out, at, size, b'\n')
}

// The line of a slot.
fn put_slot(out: &mut [u8], at: usize, k: usize, start: u32, end: u32, owner: u8) -> usize
    requires { at + length (slot_line k start end owner) ≤ length out.old }
    ensures { Wrote (slot_line k start end owner) at out.old result out.new }
{
    let first = put_head(out, at, b'S', k as u64, b' ');
    let second = put_number_then(out, first, start as u64, b' ');
    let third = put_number_then(out, second, end as u64, b' ');
    put_owner(out, third, owner)
}

// The line of a person.
fn put_person(out: &mut [u8], at: usize, p: usize, minutes: u64, target: i64) -> usize
    requires { at + length (person_line p minutes target) ≤ length out.old }
    ensures { Wrote (person_line p minutes target) at out.old result out.new }
{
    let first = put_head(out, at, b'P', p as u64, b' ');
    let second = put_number_then(out, first, minutes, b' ');
    put_signed(out, second, target)
}

// The letter of an answer.
fn letter_of(answer: u8) -> u8
    ensures { result ≡ answer_letter answer }
{
    if answer == 0 {
        return b'A';
    }
    if answer == 1 {
        return b'N';
    }
    b'C'
}

// The line of a draw.
fn put_draw(out: &mut [u8], at: usize, d: usize, answer: u8) -> usize
    requires { at + length (draw_line d answer) ≤ length out.old }
    ensures { Wrote (draw_line d answer) at out.old result out.new }
{
    let letter = letter_of(answer);
    let first = put_head(out, at, b'D', d as u64, b' ');
    let second = put_byte(out, first, letter);
    put_byte(out, second, b'\n')
}

// The lines of n slots.
pub(crate) fn put_slots(
    out: &mut [u8],
    at: usize,
    n: usize,
    starts: &[u32],
    ends: &[u32],
    owners: &[u8],
) -> usize
    requires n_in_bounds { (n ≤ length starts.now) × (n ≤ length ends.now) × (n ≤ length owners.now) }
    requires n_in_bounds_2 { at + length (lines (slot_at starts.now ends.now owners.now) n) ≤ length out.old }
    ensures { Wrote (lines (slot_at starts.now ends.now owners.now) n) at out.old result
        out.new }
{
    let mut next = at;
    for k in 0..n {
        next = put_slot(out, next, k, starts[k], ends[k], owners[k]);
    }
    next
}

// The lines of n people.
pub(crate) fn put_people(
    out: &mut [u8],
    at: usize,
    n: usize,
    minutes: &[u64],
    targets: &[i64],
) -> usize
    requires n_in_bounds { (n ≤ length minutes.now) × (n ≤ length targets.now) }
    requires n_in_bounds_2 { at + length (lines (person_at minutes.now targets.now) n) ≤ length out.old }
    ensures { Wrote (lines (person_at minutes.now targets.now) n) at out.old result out.new }
{
    let mut next = at;
    for k in 0..n {
        let target = targets[k];
        next = put_person(out, next, k, minutes[k], target);
    }
    next
}

// The lines of n draws.
fn put_draws(out: &mut [u8], at: usize, n: usize, answers: &[u8]) -> usize
    requires n_in_bounds { n ≤ length answers.now }
    requires n_in_bounds_2 { at + length (lines (draw_at answers.now) n) ≤ length out.old }
    ensures { Wrote (lines (draw_at answers.now) n) at out.old result out.new }
{
    let mut next = at;
    for k in 0..n {
        next = put_draw(out, next, k, answers[k]);
    }
    next
}

// The lines of the whole listing, from the front of out; its length.
fn put_lines(
    out: &mut [u8],
    slots: usize,
    starts: &[u32],
    ends: &[u32],
    owners: &[u8],
    people: usize,
    minutes: &[u64],
    targets: &[i64],
    draws: usize,
    answers: &[u8],
    uncovered: u64,
) -> usize
    requires slots_in_bounds { (slots ≤ length starts.now) × (slots ≤ length ends.now) × (slots ≤ length owners.now) }
    requires people_in_bounds { (people ≤ length minutes.now) × (people ≤ length targets.now) × (draws ≤ length answers.now) }
    requires uncovered_in_bounds { length (listing_of (listed slots starts.now ends.now owners.now people minutes.now targets.now draws
        answers.now uncovered)) ≤ length out.old }
    ensures { Wrote (listing_of (listed slots starts.now ends.now owners.now people
        minutes.now targets.now draws answers.now uncovered)) 0 out.old result out.new }
{
    let first = put_slots(out, 0, slots, starts, ends, owners);
    let second = put_people(out, first, people, minutes, targets);
    let third = put_draws(out, second, draws, answers);
    put_head(out, third, b'U', uncovered, b'\n')
}

// The whole listing, from the front of out, which has room for any; its length.
pub(crate) fn put_listing(
    out: &mut [u8],
    slots: usize,
    starts: &[u32],
    ends: &[u32],
    owners: &[u8],
    people: usize,
    minutes: &[u64],
    targets: &[i64],
    draws: usize,
    answers: &[u8],
    uncovered: u64,
) -> usize
    requires slots_bound { (slots ≤ 1024) × (people ≤ 32) × (draws ≤ 1024) × (listing_most ≤ length out.old) }
    requires slots_in_bounds { (slots ≤ length starts.now) × (slots ≤ length ends.now) × (slots ≤ length owners.now) }
    requires people_in_bounds { (people ≤ length minutes.now) × (people ≤ length targets.now) × (draws ≤ length answers.now) }
    requires by_index { (p : ℕ) → p < people → mag (get_or targets.now p (pos 0)) < 2 ^ 63 }
    ensures { Wrote (listing_of (listed slots starts.now ends.now owners.now people
        minutes.now targets.now draws answers.now uncovered)) 0 out.old result out.new }
{
    put_lines(
        out, slots, starts, ends, owners, people, minutes, targets, draws, answers, uncovered,
    )
}

// How many digits a number has.
pub(crate) fn digit_count(n: u64) -> usize
    ensures { (result ≡ length (digits n)) × (result ≤ 20) }
{
    let mut count: usize = 1;
    let mut rest = n;
    // a while: each turn takes a tenth, so no range is walked
    while 10 <= rest {
        rest = rest / 10;
        count += 1;
    }
    count
}

// How many bytes the place of a refusal's part has.
fn place_size(part: u8, place: u64, second: u64) -> usize
    ensures { (result ≡ length (place_text part place second)) × (result ≤ 42) }
{
    let size = digit_count(place) + 1;
    if part == 4 {
        return size + digit_count(second) + 1;
    }
    size
}

// How many bytes the line of a refusal has.
pub(crate) fn refusal_size(number: u8, part: u8, place: u64, second: u64) -> usize
    ensures { result ≡ length (refusal_line (record { number = number; part = part; place = place; second = second })) }
{
    let size = digit_count(number as u64) + 3;
    if part == 0 {
        return size;
    }
    size + digit_count(part as u64) + 1 + place_size(part, place, second)
}

// The place of a refusal's part, and a newline.
fn put_place(out: &mut [u8], at: usize, part: u8, place: u64, second: u64) -> usize
    requires { at + length (place_text part place second) ≤ length out.old }
    ensures { Wrote (place_text part place second) at out.old result out.new }
{
    if part == 4 {
        let next = put_number_then(out, at, place, b' ');
        return put_number_then(out, next, second, b'\n');
    }
    put_number_then(out, at, place, b'\n')
}

// A refusal's part and its place.
fn put_part(out: &mut [u8], at: usize, part: u8, place: u64, second: u64) -> usize
    requires { at + length (part_text part place second) ≤ length out.old }
    ensures { Wrote (part_text part place second) at out.old result out.new }
{
    let next = put_number_then(out, at, part as u64, b' ');
    put_place(out, next, part, place, second)
}

// The line of a refusal.
pub(crate) fn put_refusal(out: &mut [u8], number: u8, part: u8, place: u64, second: u64) -> usize
    requires { length (refusal_line (record { number = number; part = part; place = place; second = second })) ≤ length out.old }
    ensures { Wrote (refusal_line (record { number = number; part = part; place = place; second = second })) 0 out.old result
        out.new }
{
    if part == 0 {
        return put_head(out, 0, b'R', number as u64, b'\n');
    }
    let next = put_head(out, 0, b'R', number as u64, b'.');
    put_part(out, next, part, place, second)
}

// The line of a refusal at the front of line, and its length. Refusal 2: line is shorter than that.
pub fn refusal_line(refusal: Refusal, line: &mut [u8]) -> Result<usize, Refusal>
    ensures { Ends (refusal_result refusal line.old) result line.new }
{
    let place = refusal.place as u64;
    let second = refusal.second as u64;
    let size = refusal_size(refusal.number, refusal.part, place, second);
    let short = paper::check(paper::accepted(), size <= line.len(), 2);
    if short.number != 0 {
        return Err(short);
    }
    Ok(put_refusal(line, refusal.number, refusal.part, place, second))
}
