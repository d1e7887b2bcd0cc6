// Whole rings in their usual form, and island counts, in one go, for both passes: the second trusts what the first has judged.
ghost use Rattle.std.specs.Prelude.{◌≡◌, true, ◌+◌, ◌*◌, ◌<◌, ◌≤◌, length, drop, IfSome};
ghost use Rattle.record.specs.Record.{is_exact};
ghost use Rattle.record.specs.Refusals.{file_most};
ghost use Rattle.quick.specs.Seen.{Usual};
ghost use Rattle.reader.specs.Turn.{size_of, InFile, Turns};
ghost use Rattle.reader.specs.Store.{Stores};
ghost use Rattle.reader.specs.Trust.{Sure};
ghost use Rattle.reader.specs.RingRun.{stored_reals, Storable, ShutAt, past_ring, past_islands, IslandsPut};

use crate::cells::{put_island, put_real};
use crate::first_runs::ended_at;
use crate::turns::size_of;
use crate::{Needs, ReadStand, Size};
use machine::{Ring, State, step_at};
use quick::by_word::usual_value;
use quick::integers::integer_at;
use quick::usual_run;
use record::{Mode, is_exact};

// The number in the record at a place, in its usual form first.
fn size_at(src: &[u8], at: usize, mode: Mode) -> Size
    requires { at ≤ length src.now }
    ensures { result ≡ size_of mode (drop at src.now) }
{
    let q = integer_at(src, at, mode);
    if q.width > 0 {
        return Size {
            n: q.value,
            width: q.width,
        };
    }
    size_of(&src[at..], mode)
}

// A ring that may be taken whole: all of it is to come, and a file of `len` bytes holds it.
fn is_whole(r: Ring, len: usize) -> bool
    ensures { result ≡ true → (r.fresh ≡ true) × (2 ≤ r.left) × (r.left ≤ len) }
{
    r.fresh && r.left >= 2 && r.left <= len
}

// The bytes of each record, where `n` reals stand in their usual form.
pub(crate) fn judged_width(src: &[u8], at: usize, mode: Mode, n: usize) -> Option<usize>
    ensures { IfSome result (λ w. Usual mode src.now at w n) }
{
    let run = usual_run(src, at, mode, n);
    if run.count < n {
        return None;
    }
    Some(run.width)
}

// The same real twice, by its bytes: of two in the usual form, equal bytes are one number. (Written out: == on slices is a loop, and this is hot.)
fn is_same_real(a: &[u8], b: &[u8]) -> bool
    requires { (length a.now ≡ 12) × (length b.now ≡ 12) }
    ensures { result ≡ true → a.now ≡ b.now }
{
    (a[0] == b[0])
        & (a[1] == b[1])
        & (a[2] == b[2])
        & (a[3] == b[3])
        & (a[4] == b[4])
        & (a[5] == b[5])
        & (a[6] == b[6])
        & (a[7] == b[7])
        & (a[8] == b[8])
        & (a[9] == b[9])
        & (a[10] == b[10])
        & (a[11] == b[11])
}

// The vertex at `last` is the one at `at`, where it must be.
pub(crate) fn is_shut_there(src: &[u8], at: usize, width: usize, last: usize, closed: bool) -> bool
    requires { (at + width + 12 ≤ length src.now) × (last + width + 12 ≤ length src.now) × (length src.now ≤ file_most) }
    ensures { result ≡ true → ShutAt src.now at width last closed }
{
    if !closed {
        return true;
    }
    let mid = at + width;
    let mid_last = last + width;
    let x = is_same_real(&src[at..at + 12], &src[last..last + 12]);
    let y = is_same_real(&src[mid..mid + 12], &src[mid_last..mid_last + 12]);
    x & y
}

// The stand behind a ring: at the next one, whose size is known, or where a keyword is due.
fn past_ring(d: ReadStand, r: Ring, at: usize, size: Size) -> ReadStand
    requires { (d.nth + 2 * r.left < 18446744073709551616) × (d.needs.points + r.left < 18446744073709551616) × (d.ring + size.width < 18446744073709551616) }
    ensures { result ≡ past_ring d r at size }
{
    if r.rings == 0 {
        return ended_at(d, r.left, at);
    }
    ReadStand {
        state: State::X(Ring {
            fresh: true,
            rings: r.rings - 1,
            left: size.n,
            fx: 0,
            fy: 0,
            ..r
        }),
        at,
        nth: d.nth + 2 * r.left,
        ring: d.ring + size.width,
        needs: Needs {
            points: d.needs.points + r.left,
            ..d.needs
        },
    }
}

// Over a whole ring in its usual form.
pub(crate) fn ring_skim(src: &[u8], mode: Mode, d: ReadStand) -> ReadStand
    requires { InFile src.now d }
    ensures { Turns mode src.now d result }
{
    let State::X(r) = d.state else {
        return d;
    };
    if !is_whole(r, src.len()) {
        return d;
    }
    let n = 2 * r.left;
    let Some(width) = judged_width(src, d.at, mode, n) else {
        return d;
    };
    let last = d.at + width * (n - 2);
    if !is_shut_there(src, d.at, width, last, r.closed) {
        return d;
    }
    past_ring(d, r, d.at + width * n, size_at(src, d.ring, mode))
}

// As `judged_width` says; but what exact mode has judged before is trusted.
pub(crate) fn trusted_width(src: &[u8], at: usize, mode: Mode, n: usize) -> Option<usize>
    requires { is_exact mode ≡ true → Usual mode src.now at 14 n }
    ensures { IfSome result (λ w. Usual mode src.now at w n) }
{
    if is_exact(mode) {
        return Some(14);
    }
    judged_width(src, at, mode, n)
}

// A table of `len` numbers holds `n` points behind `from` points.
pub(crate) fn holds_ring(len: usize, from: usize, n: usize) -> bool
    ensures { result ≡ true → 2 * (from + n) ≤ len }
{
    len / 2 >= from && len / 2 - from >= n
}

// The reals of `n` records, stored from a cell on.
pub(crate) fn values_into(
    src: &[u8],
    at: usize,
    width: usize,
    n: usize,
    table: &mut [i64],
    cell: usize,
)
    requires { Storable src.now at width n (length table.old) cell }
    ensures { table.new ≡ stored_reals src.now at width cell table.old n }
{
    let mut here = at;
    for k in 0..n {
        put_real(table, cell + k, usual_value(src, here));
        here += width;
    }
}

// As `ring_skim` goes, with the points stored. That the ring is shut the first pass has judged, in every mode.
pub(crate) fn ring_into(src: &[u8], mode: Mode, d: ReadStand, points: &mut [i64]) -> ReadStand
    requires { InFile src.now d × Sure mode src.now d }
    ensures { Stores mode src.now d points.old result points.new }
{
    let State::X(r) = d.state else {
        return d;
    };
    if !is_whole(r, src.len()) {
        return d;
    }
    if !holds_ring(points.len(), d.needs.points, r.left) {
        return d;
    }
    let n = 2 * r.left;
    let Some(width) = trusted_width(src, d.at, mode, n) else {
        return d;
    };
    values_into(src, d.at, width, n, points, 2 * d.needs.points);
    past_ring(d, r, d.at + width * n, size_at(src, d.ring, mode))
}

// A stand at another state, `k` island counts further.
fn past_islands(d: ReadStand, state: State, at: usize, k: usize) -> ReadStand
    requires { (d.nth + k < 18446744073709551616) × (d.needs.islands + k < 18446744073709551616) }
    ensures { result ≡ past_islands d state at k }
{
    ReadStand {
        state,
        at,
        nth: d.nth + k,
        needs: Needs {
            islands: d.needs.islands + k,
            ..d.needs
        },
        ..d
    }
}

// Over the counts of a border's islands, as many as go on.
pub(crate) fn islands_skim(src: &[u8], mode: Mode, d: ReadStand) -> ReadStand
    requires { InFile src.now d }
    ensures { Turns mode src.now d result }
{
    let mut st = d.state;
    let mut here = d.at;
    let mut k = 0;
    loop {
        let State::Island { left, spare, rings } = st else {
            return past_islands(d, st, here, k);
        };
        let size = size_at(src, here, mode);
        let n = size.n;
        let width = size.width;
        if width == 0 {
            return past_islands(d, st, here, k);
        }
        let Ok(Some(state)) = step_at(mode, State::Island { left, spare, rings }, n, 0) else {
            return past_islands(d, st, here, k);
        };
        st = state;
        here = here + width;
        k += 1;
    }
}

// As `islands_skim` goes, with the counts stored.
pub(crate) fn islands_into(src: &[u8], mode: Mode, d: ReadStand, islands: &mut [u16]) -> ReadStand
    requires { InFile src.now d }
    ensures { IslandsPut mode src.now d islands.old result islands.new }
{
    let needs = d.needs;
    let from = needs.islands;
    let mut st = d.state;
    let mut here = d.at;
    let mut k = 0;
    loop {
        let State::Island { left, spare, rings } = st else {
            return past_islands(d, st, here, k);
        };
        let size = size_at(src, here, mode);
        let n = size.n;
        let width = size.width;
        if width == 0 {
            return past_islands(d, st, here, k);
        }
        let Ok(Some(state)) = step_at(mode, State::Island { left, spare, rings }, n, 0) else {
            return past_islands(d, st, here, k);
        };
        let cell = from + k;
        if cell >= islands.len() {
            return past_islands(d, st, here, k);
        }
        put_island(islands, cell, n);
        st = state;
        here = here + width;
        k += 1;
    }
}
