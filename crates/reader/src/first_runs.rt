// Runs of the first pass, for speed: the numbers of a row and the vertices of a ring judged at once. A run may stop anywhere; the walk then takes one turn.
ghost use Rattle.std.specs.Prelude.{◌≡◌, true, ◌+◌, ◌-◌, ◌*◌, ◌<◌, ◌≤◌, length, IfSome};
ghost use Rattle.machine.specs.declared.State.TheVariants.{X};
ghost use Rattle.reader.specs.Turn.{InFile, Turns, past_vertices, behind_rings, FieldSays, stand_on, begun, Runs, FirstAt};

use crate::turns::size_of;
use crate::{First, Needs, ReadStand, Said, Size};
use kinds::{ROW_WIDTH, want_at};
use machine::{Ring, State, field_step, is_shut};
use quick::{real_at, vertices};
use record::Mode;
use token::Want;

// What the number at a place of a row says.
pub(crate) fn said_at(src: &[u8], at: usize, mode: Mode, place: usize) -> Option<Said>
    requires { at ≤ length src.now }
    ensures { IfSome result (λ r. FieldSays mode src.now at place r.width r.token) }
{
    if place >= ROW_WIDTH {
        return None;
    }
    match want_at(place) {
        Want::Real => {
            let q = real_at(src, at, mode);
            if q.width == 0 {
                return None;
            }
            Some(Said {
                token: q.value,
                width: q.width,
            })
        }
        Want::Int => {
            let Size { n, width } = size_of(&src[at..], mode);
            if width == 0 {
                return None;
            }
            Some(Said { token: n, width })
        }
        Want::Text | Want::Key => None,
    }
}

// A stand at another state, `k` records further.
pub(crate) fn onward_at(d: ReadStand, state: State, at: usize, ring: usize, k: usize) -> ReadStand
    requires { d.nth + k < 18446744073709551616 }
    ensures { result ≡ stand_on d state at ring k }
{
    ReadStand {
        state,
        at,
        nth: d.nth + k,
        ring,
        ..d
    }
}

// Over the numbers of a row, as many as are read.
pub(crate) fn skim_fields(src: &[u8], mode: Mode, d: ReadStand) -> ReadStand
    requires { InFile src.now d }
    ensures { Turns mode src.now d result }
{
    let mut st = d.state;
    let mut here = d.at;
    let mut ring = d.ring;
    let mut k = 0;
    loop {
        let State::Field {
            kind,
            place,
            islands,
        } = st
        else {
            return onward_at(d, st, here, ring, k);
        };
        let Some(said) = said_at(src, here, mode, place) else {
            return onward_at(d, st, here, ring, k);
        };
        let Ok(Some(state)) = field_step(mode, kind, place, islands, said.token) else {
            return onward_at(d, st, here, ring, k);
        };
        st = state;
        here += said.width;
        ring = here;
        k += 1;
    }
}

// A stand in a ring, `k` vertices further.
pub(crate) fn past_at(d: ReadStand, r: Ring, k: usize, at: usize) -> ReadStand
    requires { (k ≤ r.left) × (d.nth + 2 * k < 18446744073709551616) × (d.needs.points + k < 18446744073709551616) }
    ensures { result ≡ past_vertices d r k at }
{
    ReadStand {
        state: State::X(Ring {
            fresh: false,
            left: r.left - k,
            ..r
        }),
        at,
        nth: d.nth + 2 * k,
        needs: Needs {
            points: d.needs.points + k,
            ..d.needs
        },
        ..d
    }
}

// A vertex in the usual form: its numbers, lifted, and the place behind it.
pub(crate) fn first_at(src: &[u8], at: usize, mode: Mode) -> Option<First>
    ensures { IfSome result (λ r. FirstAt mode src.now at r.x r.y r.next) }
{
    let a = real_at(src, at, mode);
    if a.width == 0 {
        return None;
    }
    let mid = at + a.width;
    let b = real_at(src, mid, mode);
    if b.width == 0 {
        return None;
    }
    Some(First {
        x: a.value,
        y: b.value,
        next: mid + b.width,
    })
}

// A ring whose first vertex is read.
pub(crate) fn begun_at(r: Ring, x: usize, y: usize) -> Ring
    ensures { result ≡ begun r x y }
{
    Ring {
        fresh: false,
        fx: x,
        fy: y,
        ..r
    }
}

// A stand behind the last ring of a row, `k` vertices further.
pub(crate) fn ended_at(d: ReadStand, k: usize, at: usize) -> ReadStand
    requires { (d.nth + 2 * k < 18446744073709551616) × (d.needs.points + k < 18446744073709551616) }
    ensures { result ≡ behind_rings d k at }
{
    ReadStand {
        state: State::Due,
        at,
        nth: d.nth + 2 * k,
        needs: Needs {
            points: d.needs.points + k,
            ..d.needs
        },
        ..d
    }
}

// All vertices of a row's last ring are read but one.
pub(crate) fn is_ending(r: Ring, k: usize) -> bool
    requires { k < r.left }
    ensures { result ≡ true → (r.left - k ≤ 1) × (r.rings ≡ 0) }
{
    r.left - k <= 1 && r.rings == 0
}

// From a ring of which `k` vertices are read over its last vertex, where it is the last ring of its row.
fn shut_at(src: &[u8], mode: Mode, d: ReadStand, r: Ring, k: usize, at: usize) -> ReadStand
    requires { Runs src.now d r k at }
    ensures { Turns mode src.now (past_vertices d r k at) result }
{
    if !is_ending(r, k) {
        return past_at(d, r, k, at);
    }
    let Some(f) = first_at(src, at, mode) else {
        return past_at(d, r, k, at);
    };
    if is_shut(r.closed, r.fx, r.fy, f.x, f.y) {
        return ended_at(d, k + 1, f.next);
    }
    past_at(d, r, k, at)
}

// From the first vertex of a ring on.
fn skim_fresh(src: &[u8], mode: Mode, d: ReadStand, r: Ring) -> ReadStand
    requires in_file { InFile src.now d }
    requires state_value { (d.state ≡ X r) × (r.fresh ≡ true) × (2 ≤ r.left) }
    ensures { Turns mode src.now d result }
{
    let Some(f) = first_at(src, d.at, mode) else {
        return d;
    };
    let run = vertices(src, f.next, mode, r.left - 2);
    shut_at(src, mode, d, begun_at(r, f.x, f.y), run.count + 1, run.next)
}

// Over the vertices of a ring that stand in the usual form, at once.
pub(crate) fn skim(src: &[u8], mode: Mode, d: ReadStand) -> ReadStand
    requires { InFile src.now d }
    ensures { Turns mode src.now d result }
{
    let State::X(r) = d.state else {
        return d;
    };
    if r.left < 2 {
        return d;
    }
    if r.fresh {
        return skim_fresh(src, mode, d, r);
    }
    let run = vertices(src, d.at, mode, r.left - 1);
    shut_at(src, mode, d, r, run.count, run.next)
}
