// A row's fifteen numbers: those that its section gives (document 01, "Sheet tables"), each in its range, a field that the kind lacks as its
// section leaves it; and its starts (document 02, T-07).
ghost use Rattle.std.specs.Prelude.{◌≡◌, ◌&&◌, ◌||◌, ◌≤◌, ◌<◌, length, eqb, pos};
ghost use Rattle.std.specs.Int.Signed.{le_z};
ghost use Rattle.laws.specs.Lists.{below};
ghost use Rattle.laws.specs.Whole.{eq_z};
ghost use Rattle.token.specs.Lex.{kind_most};
ghost use Rattle.kinds.specs.Kinds.{row_width, own_width, unsaid};
ghost use Rattle.made.specs.Made.{in_range, has_field, is_outside, is_cell, is_cell_at, are_numbers, are_starts};
ghost use Rattle.made.specs.Turn.{starts_of};

use crate::{Counts, VERTICES_PLACE, count_at};
use kinds::{
    FIRST_ISLAND_PLACE, FIRST_LETTER_PLACE, FIRST_POINT_PLACE, OWN_WIDTH, ROW_WIDTH,
    fixed_vertices, want_at,
};
use spelling::is_real;
use token::{KINDS, Want, may_lie_outside};

// The last kind, as a number of a row.
const KIND_MOST: i64 = KINDS as i64;

fn is_between(least: i64, most: i64, z: i64) -> bool
    ensures { result ≡ (le_z least z && le_z z most) }
{
    (least..=most).contains(&z)
}

#[tactic(auto, unfolding(crate::specs::Made::in_range))]
fn in_range(want: Want, z: i64) -> bool
    ensures { result ≡ in_range want z }
{
    match want {
        Want::Key => false,
        Want::Text => is_between(1, 255, z),
        Want::Int => is_between(0, 9999, z),
        Want::Real => is_real(z),
    }
}

// Outside is 0 or 1, and 1 only where the kind may lie outside.
#[tactic(auto, unfolding(crate::specs::Made::is_outside))]
fn is_outside(kind: usize, z: i64) -> bool
    ensures { result ≡ is_outside kind z }
{
    z == 0 || z == 1 && may_lie_outside(kind)
}

fn is_either(n: usize, a: usize, b: usize) -> bool
    ensures { result ≡ (eqb n a || eqb n b) }
{
    n == a || n == b
}

fn is_among(n: usize, a: usize, b: usize, c: usize) -> bool
    ensures { result ≡ (eqb n a || (eqb n b || eqb n c)) }
{
    n == a || is_either(n, b, c)
}

// The rows of a kind have a field at a place. Where the kind is a number of the code, this is settled before it runs.
fn has(kind: usize, place: usize) -> bool
    requires { (1 ≤ kind) × (kind ≤ kind_most) × (place < own_width) }
    ensures { result ≡ has_field kind place }
{
    match place {
        2 => !is_among(kind, 1, 2, 6),
        3 => kind < 3,
        4 => kind < 4,
        5 | 6 => kind < 5,
        7 | 8 => is_either(kind, 1, 4),
        9 => !is_either(kind, 3, 5),
        10 => kind < 2,
        11 => is_among(kind, 1, 5, 7),
        _ => false,
    }
}

// What a row has at a place for which its section has no record.
#[tactic(auto, unfolding(kinds::specs::Kinds::unsaid))]
fn unsaid_at(kind: usize, place: usize) -> usize
    ensures { result ≡ unsaid kind place }
{
    if place == VERTICES_PLACE {
        fixed_vertices(kind)
    } else {
        0
    }
}

// A number that a row of a kind may have at a place.
#[tactic(auto, unfolding(crate::specs::Made::is_cell))]
fn is_cell(kind: usize, place: usize, z: i64) -> bool
    requires { (1 ≤ kind) × (kind ≤ kind_most) × (place < own_width) }
    ensures { result ≡ is_cell kind place z }
{
    match place {
        0 => is_between(1, KIND_MOST, z),
        1 => is_outside(kind, z),
        _ if has(kind, place) => in_range(want_at(place), z),
        _ => is_count(z, unsaid_at(kind, place)),
    }
}

// Each number that the section of the first row, of a kind, gives is right. Compiled into each of its calls, so that a kind's tests are settled before they run.
#[inline(always)]
#[tactic(auto, using(crate::proofs::NumberWays::cells))]
fn are_cells(kind: usize, rows: &[i64]) -> bool
    requires { (1 ≤ kind) × (kind ≤ kind_most) × (row_width ≤ length rows.now) }
    ensures { result ≡ below own_width (is_cell_at kind rows.now) }
{
    for (place, &z) in rows[..OWN_WIDTH].iter().enumerate() {
        if !is_cell(kind, place, z) {
            return false;
        }
    }
    true
}

// The first row is wholly held, and each number that its section gives is right. The kinds of most rows are told apart first, so that each has its own tests.
#[tactic(auto, using(crate::proofs::NumberWays::numbers), unfolding(crate::specs::Made::are_numbers))]
pub(crate) fn are_numbers(rows: &[i64]) -> bool
    ensures { result ≡ are_numbers rows.now }
{
    let kind = count_at(rows, 0);
    if rows.len() < ROW_WIDTH || kind < 1 || kind > KINDS {
        return false;
    }
    match kind {
        1 => are_cells(1, rows),
        2 => are_cells(2, rows),
        3 => are_cells(3, rows),
        4 => are_cells(4, rows),
        5 => are_cells(5, rows),
        _ => are_cells(kind, rows),
    }
}

// A number of a row is this count.
fn is_count(z: i64, n: usize) -> bool
    ensures { result ≡ eq_z z (pos n) }
{
    z >= 0 && z as usize == n
}

// The first row's letters, island counts and points begin there.
#[tactic(auto, unfolding(crate::specs::Made::are_starts))]
pub(crate) fn are_starts(at: Counts, rows: &[i64]) -> bool
    requires { row_width ≤ length rows.now }
    ensures { result ≡ are_starts (starts_of at) rows.now }
{
    is_count(rows[FIRST_LETTER_PLACE], at.letters)
        && is_count(rows[FIRST_ISLAND_PLACE], at.islands)
        && is_count(rows[FIRST_POINT_PLACE], at.points)
}
