// Whole rows for speed: a head, and its vertices where they are one ring in its usual form, row after row, with plain numbers between them.
// A row of another shape is left behind its head, for the pieces.
ghost use Rattle.std.specs.Prelude.{◌≡◌, true, ◌+◌, ◌*◌, ◌<◌, ◌≤◌, length, IfSome, MatchOption};
ghost use Rattle.record.specs.Record.{is_exact};
ghost use Rattle.record.specs.Refusals.{file_most};
ghost use Rattle.quick.specs.Seen.{Usual};
ghost use Rattle.machine.specs.declared.State.TheVariants.{Due};
ghost use Rattle.reader.specs.Turn.{row_more, points_more, stand_of, InFile, Turns};
ghost use Rattle.reader.specs.Store.{RowsPut};
ghost use Rattle.reader.specs.Trust.{Sure};
ghost use Rattle.reader.specs.Heads.{opened_by};
ghost use Rattle.reader.specs.RingRun.{RingOver, RingInto};

use crate::heads::{head_at, head_into, holds_head};
use crate::ring_runs::{holds_ring, is_shut_there, judged_width, trusted_width, values_into};
use crate::{Needs, ReadStand};
use machine::{Ring, State};
use record::Mode;

// The state behind the counts of a row.
fn opened(kind: usize, islands: usize, vertices: usize) -> State
    ensures { result ≡ opened_by kind islands vertices }
{
    if vertices == 0 {
        return State::Due;
    }
    let closed = kind == 1;
    if closed {
        if islands > 0 {
            return State::Island {
                left: islands,
                spare: vertices,
                rings: islands,
            };
        }
    }
    State::X(Ring {
        closed,
        fresh: true,
        rings: 0,
        left: vertices,
        fx: 0,
        fy: 0,
    })
}

// The place behind the vertices of a row, where they are one ring in its usual form, or none.
fn only_ring(
    src: &[u8],
    mode: Mode,
    at: usize,
    kind: usize,
    islands: usize,
    n: usize,
) -> Option<usize>
    requires { (at ≤ length src.now) × (length src.now ≤ file_most) }
    ensures { IfSome result (λ e. RingOver mode src.now at kind islands n e) }
{
    if n == 0 {
        return Some(at);
    }
    if islands > 0 {
        return None;
    }
    if n > src.len() {
        return None;
    }
    if n < 2 {
        return None;
    }
    let m = 2 * n;
    let width = judged_width(src, at, mode, m)?;
    let last = at + width * (m - 2);
    if is_shut_there(src, at, width, last, kind == 1) {
        return Some(at + width * m);
    }
    None
}

// As `only_ring` goes, with the points stored behind `from` points. That the ring is shut the first pass has judged.
fn only_into(
    src: &[u8],
    mode: Mode,
    at: usize,
    islands: usize,
    n: usize,
    points: &mut [i64],
    from: usize,
) -> Option<usize>
    requires at_in_bounds { (at ≤ length src.now) × (length src.now ≤ file_most) }
    requires usual { 0 < n → islands ≡ 0 → is_exact mode ≡ true → Usual mode src.now at 14 (2 * n) }
    ensures { MatchOption result (points.new ≡ points.old) (λ e. RingInto mode src.now at islands n from points.old e points.new) }
{
    if n == 0 {
        return Some(at);
    }
    if islands > 0 {
        return None;
    }
    if n > src.len() {
        return None;
    }
    if n < 2 {
        return None;
    }
    if !holds_ring(points.len(), from, n) {
        return None;
    }
    let m = 2 * n;
    let width = trusted_width(src, at, mode, m)?;
    values_into(src, at, width, m, points, 2 * from);
    Some(at + width * m)
}

fn stand_of(state: State, at: usize, nth: usize, ring: usize, needs: Needs) -> ReadStand
    ensures { result ≡ stand_of state at nth ring needs }
{
    ReadStand {
        state,
        at,
        nth,
        ring,
        needs,
    }
}

// One row more, with so many letters.
fn row_more(a: Needs, n: usize) -> Needs
    requires { (a.rows + 1 < 18446744073709551616) × (a.letters + n < 18446744073709551616) }
    ensures { result ≡ row_more a n }
{
    Needs {
        rows: a.rows + 1,
        letters: a.letters + n,
        ..a
    }
}

fn points_more(a: Needs, n: usize) -> Needs
    requires { a.points + n < 18446744073709551616 }
    ensures { result ≡ points_more a n }
{
    Needs {
        points: a.points + n,
        ..a
    }
}

// Over rows, from where a keyword is due.
pub(crate) fn skim_heads(src: &[u8], mode: Mode, d: ReadStand) -> ReadStand
    requires { InFile src.now d × (d.state ≡ Due) }
    ensures { Turns mode src.now d result }
{
    let mut at = d.at;
    let mut nth = d.nth;
    let mut ring = d.ring;
    let mut needs = d.needs;
    loop {
        let Some(h) = head_at(src, at, mode, false) else {
            return stand_of(State::Due, at, nth, ring, needs);
        };
        let next = h.next;
        let kind = h.token / 2;
        let islands = h.islands;
        let n = h.vertices;
        let behind = row_more(needs, h.letters);
        let Some(end) = only_ring(src, mode, next, kind, islands, n) else {
            let state = opened(kind, islands, n);
            return stand_of(state, next, nth + h.records, next, behind);
        };
        at = end;
        nth = nth + h.records + 2 * n;
        ring = next;
        needs = points_more(behind, n);
    }
}

// As `skim_heads` goes, with all of it stored.
pub(crate) fn put_heads(
    src: &[u8],
    mode: Mode,
    d: ReadStand,
    rows: &mut [i64],
    letters: &mut [u8],
    points: &mut [i64],
) -> ReadStand
    requires { InFile src.now d × Sure mode src.now d × (d.state ≡ Due) }
    ensures { RowsPut mode src.now d rows.old letters.old points.old result rows.new letters.new points.new }
{
    let mut at = d.at;
    let mut nth = d.nth;
    let mut ring = d.ring;
    let mut needs = d.needs;
    loop {
        let Some(h) = head_at(src, at, mode, true) else {
            return stand_of(State::Due, at, nth, ring, needs);
        };
        let next = h.next;
        if !holds_head(
            rows.len(),
            needs.rows,
            letters.len(),
            needs.letters,
            h.letters,
        ) {
            return stand_of(State::Due, at, nth, ring, needs);
        }
        head_into(src, h, needs, rows, letters);
        let islands = h.islands;
        let n = h.vertices;
        let behind = row_more(needs, h.letters);
        let Some(end) = only_into(src, mode, next, islands, n, points, needs.points) else {
            let state = opened(h.token / 2, islands, n);
            return stand_of(state, next, nth + h.records, next, behind);
        };
        at = end;
        nth = nth + h.records + 2 * n;
        ring = next;
        needs = points_more(behind, n);
    }
}
