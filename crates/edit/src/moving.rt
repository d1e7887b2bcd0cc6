// A sheet that is moved: where its coordinates would go is judged in one walk, and stored in another.
ghost use Rattle.std.specs.Prelude.{◌≡◌, true, cond, ◌+◌, ◌*◌, ◌≤◌, ◌<◌, length, get_or, set, pos, ◌+ℤ◌};
ghost use Rattle.number.specs.Number.{is_real};
ghost use Rattle.kinds.specs.Kinds.{row_width, x_place, x2_place};
ghost use Rattle.plane.specs.Moved.{moved};
ghost use Rattle.made.specs.Made.{tables_of, has_field, are_reals};
ghost use Rattle.edit.specs.Answers.{tables_at};
ghost use Rattle.edit.specs.Moves.{is_part, row_stays, rows_stay, moved_rows, moved_tables, move_of};
ghost use Rattle.edit.specs.Used.{pair_stays, pair_shifted, vertex_most, vertex_count, is_move_of, moved_points};

use crate::Unedited;
use heading::Header;
use kinds::ROW_WIDTH;
use made::{Lent, Sheet, count_at, judge};
use record::Mode;

// How far a part of a move may go, either way.
const MOVE_MOST: i64 = 109_999_999_998;

const REAL_LEAST: i64 = -9_999_999_999;

const REAL_MOST: i64 = 99_999_999_999;

const X_PLACE: usize = 5;

const X2_PLACE: usize = 7;

const VERTICES_PLACE: usize = 11;

// A part of a move that is not too far.
fn is_part(by: i64) -> bool
    ensures { result ≡ is_part by }
{
    if by > MOVE_MOST {
        return false;
    }
    if by < -MOVE_MOST { false } else { true }
}

// A coordinate stays in the real range.
fn stays(z: i64, by: i64) -> bool
    requires { is_part by ≡ true }
    ensures { result ≡ is_real (z +ℤ by) }
{
    if z < REAL_LEAST - by {
        return false;
    }
    if z > REAL_MOST - by { false } else { true }
}

fn shifted(z: i64, by: i64) -> i64
    requires { is_real (z +ℤ by) ≡ true }
    ensures { result ≡ z +ℤ by }
{
    z + by
}

// The number at a place of a table: whether it stays, and shifted.
fn stays_at(s: &[i64], at: usize, by: i64) -> bool
    requires { (at < length s.now) × (is_part by ≡ true) }
    ensures { result ≡ is_real (get_or s.now at (pos 0) +ℤ by) }
{
    stays(s[at], by)
}

fn shift_at(s: &mut [i64], at: usize, by: i64)
    requires { (at < length s.old) × (is_real (get_or s.old at (pos 0) +ℤ by) ≡ true) }
    ensures { s.new ≡ set s.old at (get_or s.old at (pos 0) +ℤ by) }
{
    s[at] = shifted(s[at], by);
}

// The same of the x and y there.
fn pair_stays(s: &[i64], at: usize, dx: i64, dy: i64) -> bool
    requires { (at + 1 < length s.now) × (is_part dx ≡ true) × (is_part dy ≡ true) }
    ensures { result ≡ pair_stays dx dy s.now at }
{
    if !stays_at(s, at, dx) {
        return false;
    }
    stays_at(s, at + 1, dy)
}

fn shift_pair(s: &mut [i64], at: usize, dx: i64, dy: i64)
    requires { (at + 1 < length s.old) × (pair_stays dx dy s.old at ≡ true) }
    ensures { s.new ≡ pair_shifted dx dy s.old at }
{
    shift_at(s, at, dx);
    shift_at(s, at + 1, dy);
}

// The kinds that have a position, and those that have a second point.
fn has_position(kind: usize) -> bool
    ensures { result ≡ has_field kind x_place }
{
    if kind < 1 {
        return false;
    }
    if kind < 5 { true } else { false }
}

fn has_second(kind: usize) -> bool
    ensures { result ≡ has_field kind x2_place }
{
    if kind == 1 {
        return true;
    }
    if kind == 4 { true } else { false }
}

// The coordinates of the first row stay.
fn row_stays(rows: &[i64], dx: i64, dy: i64) -> bool
    requires { (row_width ≤ length rows.now) × (is_part dx ≡ true) × (is_part dy ≡ true) }
    ensures { result ≡ row_stays dx dy rows.now }
{
    let kind = count_at(rows, 0);
    if !has_position(kind) {
        return true;
    }
    if !pair_stays(rows, X_PLACE, dx, dy) {
        return false;
    }
    if !has_second(kind) {
        return true;
    }
    pair_stays(rows, X2_PLACE, dx, dy)
}

fn rows_stay(count: usize, rows: &[i64], dx: i64, dy: i64) -> bool
    requires { (row_width * count ≤ length rows.now) × (is_part dx ≡ true) × (is_part dy ≡ true) }
    ensures { result ≡ rows_stay dx dy count rows.now }
{
    let mut r = 0;
    let mut k = 0;
    while k < count {
        if !row_stays(&rows[r..], dx, dy) {
            return false;
        }
        r += ROW_WIDTH;
        k += 1;
    }
    true
}

// The vertices of the first rows.
fn vertices_of(count: usize, rows: &[i64]) -> usize
    requires { (row_width * count ≤ length rows.now) × (vertex_count count rows.now ≤ vertex_most) }
    ensures { result ≡ vertex_count count rows.now }
{
    let mut v = 0;
    let mut r = 0;
    let mut k = 0;
    while k < count {
        v += count_at(&rows[r..], VERTICES_PLACE);
        r += ROW_WIDTH;
        k += 1;
    }
    v
}

// v points stay.
fn points_stay(v: usize, s: &[i64], dx: i64, dy: i64) -> bool
    requires { (length s.now ≡ 2 * v) × (is_part dx ≡ true) × (is_part dy ≡ true) }
    ensures { result ≡ are_reals (moved dx dy s.now) }
{
    let mut k = 0;
    while k < v {
        if !pair_stays(s, 2 * k, dx, dy) {
            return false;
        }
        k += 1;
    }
    true
}

fn move_row(rows: &mut [i64], dx: i64, dy: i64)
    requires { (row_width ≤ length rows.old) × (row_stays dx dy rows.old ≡ true) }
    ensures { rows.new ≡ moved_rows dx dy 1 rows.old }
{
    let kind = count_at(rows, 0);
    if !has_position(kind) {
        return;
    }
    shift_pair(rows, X_PLACE, dx, dy);
    if !has_second(kind) {
        return;
    }
    shift_pair(rows, X2_PLACE, dx, dy);
}

fn move_rows(count: usize, rows: &mut [i64], dx: i64, dy: i64)
    requires { (row_width * count ≤ length rows.old) × (rows_stay dx dy count rows.old ≡ true) }
    ensures { rows.new ≡ moved_rows dx dy count rows.old }
{
    let mut r = 0;
    let mut k = 0;
    while k < count {
        move_row(&mut rows[r..], dx, dy);
        r += ROW_WIDTH;
        k += 1;
    }
}

fn move_points(v: usize, s: &mut [i64], dx: i64, dy: i64)
    requires { (length s.old ≡ 2 * v) × (are_reals (moved dx dy s.old) ≡ true) }
    ensures { s.new ≡ moved dx dy s.old }
{
    let mut k = 0;
    while k < v {
        shift_pair(s, 2 * k, dx, dy);
        k += 1;
    }
}

// A judged sheet: whether the move is one; then the rows, and the points that they use.
fn move_judged(count: usize, rows: &mut [i64], points: &mut [i64], dx: i64, dy: i64) -> bool
    requires { (row_width * count ≤ length rows.old) × (2 * vertex_count count rows.old ≤ length points.old) }
    ensures value { result ≡ is_move_of dx dy count rows.old points.old }
    ensures rows_after { rows.new ≡ cond result (moved_rows dx dy count rows.old) rows.old }
    ensures points_after { points.new ≡ cond result (moved_points dx dy count rows.old points.old) points.old }
{
    if !is_part(dx) {
        return false;
    }
    if !is_part(dy) {
        return false;
    }
    if !rows_stay(count, rows, dx, dy) {
        return false;
    }
    let v = vertices_of(count, rows);
    let used = 2 * v;
    if !points_stay(v, &points[..used], dx, dy) {
        return false;
    }
    move_rows(count, rows, dx, dy);
    move_points(v, &mut points[..used], dx, dy);
    true
}

// Moves the whole sheet by a pair of whole millimetres, and answers its rows. Any code is well made.
#[tactic(auto, unfolding(crate::specs::Moves::move_of))]
pub fn move_sheet(
    header: Header,
    count: usize,
    rows: &mut [i64],
    letters: &[u8],
    islands: &[u16],
    points: &mut [i64],
    dx: i64,
    dy: i64,
) -> Result<usize, Unedited>
    ensures value { result ≡ move_of header count (tables_of rows.old letters.now islands.now points.old) dx dy }
    ensures rows_after { rows.new ≡ (tables_at result (moved_tables dx dy count (tables_of rows.old letters.now islands.now points.old)) (tables_of rows.old letters.now islands.now points.old)).rows }
    ensures points_after { points.new ≡ (tables_at result (moved_tables dx dy count (tables_of rows.old letters.now islands.now points.old)) (tables_of rows.old letters.now islands.now points.old)).points }
{
    let lent = Lent {
        rows: &*rows,
        letters,
        islands,
        points: &*points,
    };
    judge(
        Mode::Loose,
        &Sheet {
            header,
            count,
            lent,
        },
    )?;
    if !move_judged(count, rows, points, dx, dy) {
        return Err(Unedited::MovedOff);
    }
    Ok(count)
}
