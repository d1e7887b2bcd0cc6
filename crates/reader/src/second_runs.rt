// Runs of the second pass, for speed: the numbers of a row and the vertices of a ring stored at once.
ghost use Rattle.std.specs.Prelude.{◌≡◌, true, ◌+◌, ◌*◌, ◌<◌, ◌≤◌};
ghost use Rattle.kinds.specs.Kinds.{row_width};
ghost use Rattle.machine.specs.declared.State.TheVariants.{X};
ghost use Rattle.reader.specs.Turn.{InFile, past_vertices, Runs};
ghost use Rattle.reader.specs.Store.{Enters, VerticesStored, Stores};

use crate::ReadStand;
use crate::cells::{put_field, put_real};
use crate::first_runs::{begun_at, ended_at, first_at, is_ending, onward_at, past_at, said_at};
use kinds::ROW_WIDTH;
use machine::{Ring, State, field_step, is_shut};
use quick::{Run, real_at};
use record::Mode;

// There is a last row of so many, and a table of `len` numbers holds it.
fn is_begun(len: usize, count: usize) -> bool
    ensures { result ≡ true → (1 ≤ count) × (row_width * count ≤ len) }
{
    count >= 1 && len / ROW_WIDTH >= count
}

// As `skim_fields` goes, with the numbers stored in the last row.
pub(crate) fn fields_into(src: &[u8], mode: Mode, d: ReadStand, rows: &mut [i64]) -> ReadStand
    requires { InFile src.now d }
    ensures { Enters mode src.now d rows.old result rows.new }
{
    if !is_begun(rows.len(), d.needs.rows) {
        return d;
    }
    let row = ROW_WIDTH * (d.needs.rows - 1);
    let mut st = d.state;
    let mut here = d.at;
    let mut ring = d.ring;
    let mut k = 0;
    loop {
        let State::Field {
            kind,
            place,
            islands,
        } = st
        else {
            return onward_at(d, st, here, ring, k);
        };
        let Some(said) = said_at(src, here, mode, place) else {
            return onward_at(d, st, here, ring, k);
        };
        let Ok(Some(state)) = field_step(mode, kind, place, islands, said.token) else {
            return onward_at(d, st, here, ring, k);
        };
        put_field(rows, row + place, place, said.token);
        st = state;
        here += said.width;
        ring = here;
        k += 1;
    }
}

// How many points, `most` at most, a table of `len` numbers holds behind `from` points.
fn room_at(len: usize, from: usize, most: usize) -> usize
    ensures { (result ≤ most) × (0 < result → 2 * (from + result) ≤ len) }
{
    (len / 2).saturating_sub(from).min(most)
}

// At most so many vertices from a place on, as many as stand there in the usual form, stored behind `from` points.
fn store_run(src: &[u8], at: usize, mode: Mode, most: usize, points: &mut [i64], from: usize) -> Run
    ensures { (result.count ≤ most) × VerticesStored mode src.now at from points.old result.count result.next points.new }
{
    let room = room_at(points.len(), from, most);
    let mut here = at;
    for k in 0..room {
        let x = real_at(src, here, mode);
        if x.width == 0 {
            return Run {
                count: k,
                next: here,
            };
        }
        let mid = here + x.width;
        let y = real_at(src, mid, mode);
        if y.width == 0 {
            return Run {
                count: k,
                next: here,
            };
        }
        let p = 2 * (from + k);
        put_real(points, p, x.value);
        put_real(points, p + 1, y.value);
        here = mid + y.width;
    }
    Run {
        count: room,
        next: here,
    }
}

// As `shut_at` goes, with the vertex stored.
fn shut_into(
    src: &[u8],
    mode: Mode,
    d: ReadStand,
    r: Ring,
    k: usize,
    at: usize,
    points: &mut [i64],
) -> ReadStand
    requires { Runs src.now d r k at }
    ensures { Stores mode src.now (past_vertices d r k at) points.old result points.new }
{
    let p = 2 * (d.needs.points + k);
    if !is_ending(r, k) {
        return past_at(d, r, k, at);
    }
    if p + 1 >= points.len() {
        return past_at(d, r, k, at);
    }
    let Some(f) = first_at(src, at, mode) else {
        return past_at(d, r, k, at);
    };
    if is_shut(r.closed, r.fx, r.fy, f.x, f.y) {
        put_real(points, p, f.x);
        put_real(points, p + 1, f.y);
        return ended_at(d, k + 1, f.next);
    }
    past_at(d, r, k, at)
}

// From the first vertex of a ring on, with the points stored.
fn fresh_into(src: &[u8], mode: Mode, d: ReadStand, r: Ring, points: &mut [i64]) -> ReadStand
    requires in_file { InFile src.now d }
    requires state_value { (d.state ≡ X r) × (r.fresh ≡ true) × (2 ≤ r.left) }
    ensures { Stores mode src.now d points.old result points.new }
{
    let from = d.needs.points;
    let p = 2 * from;
    if p + 1 >= points.len() {
        return d;
    }
    let Some(f) = first_at(src, d.at, mode) else {
        return d;
    };
    put_real(points, p, f.x);
    put_real(points, p + 1, f.y);
    let run = store_run(src, f.next, mode, r.left - 2, points, from + 1);
    shut_into(
        src,
        mode,
        d,
        begun_at(r, f.x, f.y),
        run.count + 1,
        run.next,
        points,
    )
}

// As `skim` goes, with the points stored.
pub(crate) fn run_into(src: &[u8], mode: Mode, d: ReadStand, points: &mut [i64]) -> ReadStand
    requires { InFile src.now d }
    ensures { Stores mode src.now d points.old result points.new }
{
    let State::X(r) = d.state else {
        return d;
    };
    if r.left < 2 {
        return d;
    }
    if r.fresh {
        return fresh_into(src, mode, d, r, points);
    }
    let run = store_run(src, d.at, mode, r.left - 1, points, d.needs.points);
    shut_into(src, mode, d, r, run.count, run.next, points)
}
