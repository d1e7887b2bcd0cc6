// What a record puts into the tables that are lent.
ghost use Rattle.std.specs.Prelude.{◌≡◌, cond, ◌+◌, ◌/◌, ◌%◌, ◌<◌, ◌≤◌, length, set, eqb, pos};
ghost use Rattle.laws.specs.Lists.{pasted};
ghost use Rattle.number.specs.Words.{trimmed};
ghost use Rattle.token.specs.Lex.{unlift};
ghost use Rattle.kinds.specs.Kinds.{row_width, own_width, unsaid, want_at};
ghost use Rattle.sheet.specs.Tables.{own_cells, start_cells, new_row, cell_of};
ghost use Rattle.reader.specs.Store.{token_most, Counted, starts_behind, IslandToken, rows_put, letters_put, islands_put, points_put, PutRoom};

use crate::Needs;
use kinds::{OWN_WIDTH, ROW_WIDTH, fixed_vertices, want_at};
use machine::State;
use number::word_of;
use record::Mode;
use token::Want;

pub(crate) const LETTERS_PLACE: usize = 9;

pub(crate) const VERTICES_PLACE: usize = 11;

// A letter at a time, since `copy_from_slice` calls memmove (spelling: `copy`).
pub(crate) fn put_letters(dst: &mut [u8], at: usize, c: &[u8])
    requires { at + length c.now ≤ length dst.old }
    ensures { dst.new ≡ pasted dst.old at c.now }
{
    for j in 0..c.len() {
        dst[at + j] = c[j];
    }
}

pub(crate) fn put_island(dst: &mut [u16], at: usize, t: usize)
    requires { (at < length dst.old) × (t < 65536) }
    ensures { dst.new ≡ set dst.old at t }
{
    dst[at] = t as u16;
}

pub(crate) fn put_number(dst: &mut [i64], at: usize, t: usize)
    requires { (at < length dst.old) × (t ≤ token_most) }
    ensures { dst.new ≡ set dst.old at (pos t) }
{
    dst[at] = t as i64;
}

// A real of a row or of a point.
pub(crate) fn put_real(dst: &mut [i64], at: usize, t: usize)
    requires { (at < length dst.old) × (t ≤ token_most) }
    ensures { dst.new ≡ set dst.old at (unlift t) }
{
    dst[at] = t as i64 - 10_000_000_000;
}

// A field of a row.
pub(crate) fn put_field(dst: &mut [i64], at: usize, place: usize, t: usize)
    requires { (at < length dst.old) × (t ≤ token_most) }
    ensures { dst.new ≡ set dst.old at (cell_of (want_at place) t) }
{
    match want_at(place) {
        Want::Real => put_real(dst, at, t),
        Want::Key | Want::Text | Want::Int => put_number(dst, at, t),
    }
}

// What a new row has at a place: its kind, outside, and then what its section has no record for.
#[tactic(auto, unfolding(kinds::specs::Kinds::unsaid))]
fn cell(j: usize, t: usize) -> usize
    ensures { result ≡ cond (eqb j 0) (t / 2) (cond (eqb j 1) (t % 2) (unsaid (t / 2) j)) }
{
    match j {
        0 => t / 2,
        1 => t % 2,
        VERTICES_PLACE => fixed_vertices(t / 2),
        _ => 0,
    }
}

fn put_own(dst: &mut [i64], at: usize, t: usize)
    requires { (at + own_width ≤ length dst.old) × (t ≤ token_most) }
    ensures { dst.new ≡ pasted dst.old at (own_cells t) }
{
    for j in 0..OWN_WIDTH {
        put_number(dst, at + j, cell(j, t));
    }
}

// The starts of a row.
fn put_starts(dst: &mut [i64], at: usize, a: Needs)
    requires { (at + 3 ≤ length dst.old) × Counted a }
    ensures { dst.new ≡ pasted dst.old at (start_cells (starts_behind a)) }
{
    put_number(dst, at, a.letters);
    put_number(dst, at + 1, a.islands);
    put_number(dst, at + 2, a.points);
}

// A new row, where the tables hold `a` already.
pub(crate) fn put_row(dst: &mut [i64], at: usize, t: usize, a: Needs)
    requires { (at + row_width ≤ length dst.old) × (t ≤ token_most) × Counted a }
    ensures { dst.new ≡ pasted dst.old at (new_row t (starts_behind a)) }
{
    put_own(dst, at, t);
    put_starts(dst, at + OWN_WIDTH, a);
}

// The letters of a content.
fn put_word(dst: &mut [u8], at: usize, c: &[u8])
    requires { at + length (trimmed c.now) ≤ length dst.old }
    ensures { dst.new ≡ pasted dst.old at (trimmed c.now) }
{
    if let Some(word) = word_of(c, Mode::Loose) {
        put_letters(dst, at, &c[word.start..word.start + word.len]);
    }
}

// What a record with the token `t` and the content `c` stores, where the tables hold `a` already.
pub(crate) fn store(
    st: State,
    t: usize,
    c: &[u8],
    a: Needs,
    rows: &mut [i64],
    letters: &mut [u8],
    islands: &mut [u16],
    points: &mut [i64],
)
    requires t_le_token_most { (t ≤ token_most) × IslandToken st t × Counted a }
    requires put_room { PutRoom st c.now a (length rows.old) (length letters.old) (length islands.old) (length points.old) }
    ensures rows_after { rows.new ≡ rows_put st t a rows.old }
    ensures letters_after { letters.new ≡ letters_put st c.now a letters.old }
    ensures islands_after { islands.new ≡ islands_put st t a islands.old }
    ensures points_after { points.new ≡ points_put st t a points.old }
{
    match st {
        State::Due => put_row(rows, ROW_WIDTH * a.rows, t, a),
        State::Field { place, .. } => {
            put_field(rows, ROW_WIDTH * (a.rows - 1) + place, place, t);
            if place == LETTERS_PLACE {
                put_word(letters, a.letters, c);
            }
        }
        State::Island { .. } => put_island(islands, a.islands, t),
        State::X(_) => put_real(points, 2 * a.points, t),
        State::Y(_, _) => put_real(points, 2 * a.points + 1, t),
    }
}
