// One record further (document 01, "Sections"): what a walk over a file's records makes of the next one, for both passes.
ghost use Rattle.std.specs.Prelude.{◌≡◌, ◌+◌, ◌<◌, ◌≤◌, length};
ghost use Rattle.laws.specs.Lists.{tail};
ghost use Rattle.machine.specs.Machine.{step_of, of_step, one_of};
ghost use Rattle.reader.specs.Turn.{size_of, is_turning, size_next, isl_next, Few, added, closing, turn_of, stand_at, InFile, RealDue};

use crate::cells::LETTERS_PLACE;
use crate::{Needs, ReadStand, Size, Turn};
use header::Stopped;
use machine::{One, State, one_at, step_at, wanted};
use number::integer;
use quick::{RealTaken, padded};
use record::refusal::Refusal;
use record::{Mode, line_at};
use token::Want;

// The number of the record that a file's sections begin with.
const FIRST: usize = 4;

// The number in the first record of the bytes, and that record's bytes.
pub(crate) fn size_of(bs: &[u8], mode: Mode) -> Size
    ensures { result ≡ size_of mode bs.now }
{
    match line_at(bs, mode, false) {
        Err(_) => Size { n: 0, width: 0 },
        Ok(line) => match integer(&bs[..line.len], mode) {
            None => Size { n: 0, width: 0 },
            Some(n) => Size {
                n,
                width: line.width,
            },
        },
    }
}

// A ring ends here, and another follows.
fn is_turning(st: State) -> bool
    ensures { result ≡ is_turning st }
{
    match st {
        State::Y(r, _) => r.left <= 1 && r.rings != 0,
        _ => false,
    }
}

fn size_next(bs: &[u8], mode: Mode, st: State) -> Size
    ensures { result ≡ size_next mode st bs.now }
{
    if is_turning(st) {
        return size_of(bs, mode);
    }
    Size { n: 0, width: 0 }
}

// Where the next ring's size stands after a record that was read at a state.
fn ring_next(st: State, ring: usize, width: usize, at: usize) -> usize
    requires { ring + width < 18446744073709551616 }
    ensures { result ≡ isl_next st ring width at }
{
    match st {
        State::Field { .. } => at,
        State::Y(_, _) => ring + width,
        State::Due | State::Island { .. } | State::X(_) => ring,
    }
}

// What a record with the token `t` adds to the needs.
#[tactic(auto, unfolding(crate::specs::Turn::added))]
fn more_needs(a: Needs, st: State, t: usize) -> Needs
    requires { Few (added a st t) }
    ensures { result ≡ added a st t }
{
    match st {
        State::Due => Needs {
            rows: a.rows + 1,
            ..a
        },
        State::Field { place, .. } => {
            if place == LETTERS_PLACE {
                return Needs {
                    letters: a.letters + t,
                    ..a
                };
            }
            a
        }
        State::Island { .. } => Needs {
            islands: a.islands + 1,
            ..a
        },
        State::X(_) => a,
        State::Y(_, _) => Needs {
            points: a.points + 1,
            ..a
        },
    }
}

// The EOF record ends before `next`, where the record `nth` would begin.
fn closing_at(mode: Mode, nth: usize, next: usize, size: usize) -> Result<Option<Turn>, Stopped>
    ensures { result ≡ closing mode nth next size }
{
    match mode {
        Mode::Loose | Mode::Former => Ok(None),
        Mode::Exact => {
            if size <= next {
                return Ok(None);
            }
            Err(Stopped {
                refusal: Refusal::AfterEof,
                record: nth,
                offset: next,
            })
        }
    }
}

// A real's record at a place, where a real is due and its content is 12 characters.
fn quick_at(src: &[u8], at: usize, mode: Mode, st: State) -> RealTaken
    ensures { 0 < result.width → RealDue mode src.now at st result.width result.value }
{
    match wanted(st) {
        Want::Real => padded(src, at, mode),
        Want::Key | Want::Text | Want::Int => RealTaken { value: 0, width: 0 },
    }
}

// Where the token of a record with 12 characters leads.
fn stepped(mode: Mode, st: State, t: usize, next: usize, width: usize) -> Result<One, Refusal>
    ensures { result ≡ of_step t 12 width (step_of mode st t next) }
{
    let one = match step_at(mode, st, t, next)? {
        Some(state) => One::Go {
            state,
            token: t,
            len: 12,
            width,
        },
        None => One::End(width),
    };
    Ok(one)
}

// One record at a place.
fn one_of(src: &[u8], at: usize, mode: Mode, st: State, next: usize) -> Result<One, Refusal>
    requires { at ≤ length src.now }
    ensures { result ≡ one_of mode st next (tail src.now at) }
{
    let q = quick_at(src, at, mode, st);
    if q.width > 0 {
        return stepped(mode, st, q.value, next, q.width);
    }
    one_at(&src[at..], mode, st, next)
}

// One record further.
pub(crate) fn turn_at(src: &[u8], mode: Mode, d: ReadStand) -> Result<Option<Turn>, Stopped>
    requires { InFile src.now d }
    ensures { result ≡ turn_of mode src.now d }
{
    let size = size_next(&src[d.ring..], mode, d.state);
    match one_of(src, d.at, mode, d.state, size.n) {
        Err(refusal) => Err(Stopped {
            refusal,
            record: d.nth,
            offset: d.at,
        }),
        Ok(One::End(width)) => closing_at(mode, d.nth + 1, d.at + width, src.len()),
        Ok(
            One::Go {
                state,
                token,
                len,
                width,
            },
        ) => {
            let next = d.at + width;
            let stand = ReadStand {
                state,
                at: next,
                nth: d.nth + 1,
                ring: ring_next(d.state, d.ring, size.width, next),
                needs: more_needs(d.needs, d.state, token),
            };
            Ok(Some(Turn { stand, token, len }))
        }
    }
}

// Where the sections begin, nothing is read.
pub(crate) fn first_stand(start: usize) -> ReadStand
    ensures { result ≡ stand_at start }
{
    ReadStand {
        state: State::Due,
        at: start,
        nth: FIRST,
        ring: start,
        needs: Needs {
            rows: 0,
            letters: 0,
            islands: 0,
            points: 0,
        },
    }
}
