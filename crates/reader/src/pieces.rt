// Rows for speed: heads, island counts and rings in their usual form one behind the other, and the runs for what is left. A piece may stop
// anywhere; the walk then takes one turn.
ghost use Rattle.reader.specs.Turn.{InFile, Turns};
ghost use Rattle.reader.specs.Store.{Stores, Puts};
ghost use Rattle.reader.specs.Trust.{Sure};

use crate::ReadStand;
use crate::first_runs::{skim, skim_fields};
use crate::ring_runs::{islands_into, islands_skim, ring_into, ring_skim};
use crate::second_runs::{fields_into, run_into};
use crate::whole_rows::{put_heads, skim_heads};
use machine::State;
use record::Mode;

// A ring, in its usual form at once.
fn skim_ring(src: &[u8], mode: Mode, d: ReadStand) -> ReadStand
    requires { InFile src.now d }
    ensures { Turns mode src.now d result }
{
    let e = ring_skim(src, mode, d);
    if e.at > d.at {
        return e;
    }
    skim(src, mode, d)
}

// One piece further.
fn skim_piece(src: &[u8], mode: Mode, d: ReadStand) -> ReadStand
    requires { InFile src.now d }
    ensures { Turns mode src.now d result }
{
    match d.state {
        State::Due => skim_heads(src, mode, d),
        State::Field { .. } => skim_fields(src, mode, d),
        State::Island { .. } => islands_skim(src, mode, d),
        State::X(_) => skim_ring(src, mode, d),
        State::Y(_, _) => d,
    }
}

// Over pieces, as many as are read.
pub(crate) fn skim_rows(src: &[u8], mode: Mode, from: ReadStand) -> ReadStand
    requires { InFile src.now from }
    ensures { Turns mode src.now from result }
{
    let mut d = from;
    loop {
        let at = d.at;
        let e = skim_piece(src, mode, d);
        if e.at <= at {
            return e;
        }
        d = e;
    }
}

// As `skim_ring` goes, with the points stored.
fn put_ring(src: &[u8], mode: Mode, d: ReadStand, points: &mut [i64]) -> ReadStand
    requires { InFile src.now d × Sure mode src.now d }
    ensures { Stores mode src.now d points.old result points.new }
{
    let e = ring_into(src, mode, d, points);
    if e.at > d.at {
        return e;
    }
    run_into(src, mode, e, points)
}

// As `skim_piece` goes, with all of it stored.
fn put_piece(
    src: &[u8],
    mode: Mode,
    d: ReadStand,
    rows: &mut [i64],
    letters: &mut [u8],
    islands: &mut [u16],
    points: &mut [i64],
) -> ReadStand
    requires { InFile src.now d × Sure mode src.now d }
    ensures { Puts mode src.now d rows.old letters.old islands.old points.old result rows.new letters.new islands.new points.new }
{
    match d.state {
        State::Due => put_heads(src, mode, d, rows, letters, points),
        State::Field { .. } => fields_into(src, mode, d, rows),
        State::Island { .. } => islands_into(src, mode, d, islands),
        State::X(_) => put_ring(src, mode, d, points),
        State::Y(_, _) => d,
    }
}

// As `skim_rows` goes, with all of it stored.
pub(crate) fn put_rows(
    src: &[u8],
    mode: Mode,
    from: ReadStand,
    rows: &mut [i64],
    letters: &mut [u8],
    islands: &mut [u16],
    points: &mut [i64],
) -> ReadStand
    requires { InFile src.now from × Sure mode src.now from }
    ensures { Puts mode src.now from rows.old letters.old islands.old points.old result rows.new letters.new islands.new points.new }
{
    let mut d = from;
    loop {
        let at = d.at;
        let e = put_piece(src, mode, d, rows, letters, islands, points);
        if e.at <= at {
            return e;
        }
        d = e;
    }
}
