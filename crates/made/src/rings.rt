// A row's island counts and points: the counts as in a file, every ring closed.
ghost use Rattle.std.specs.Prelude.{◌≡◌, ◌&&◌, ◌*◌, ◌≤◌, length};
ghost use Rattle.laws.specs.Lists.{all};
ghost use Rattle.number.specs.Number.{is_real};
ghost use Rattle.made.specs.Made.{sum, four_at_least, are_counts, are_reals, is_closed, are_closed, ring_sizes, are_points};

use crate::outer_of;
use spelling::is_real;

// The kinds of lines: of the map, and of a survey book.
const LINE: usize = 5;

const BOOK: usize = 7;

// Every island has four vertices at least.
fn are_islands(s: &[u16]) -> bool
    ensures { result ≡ all four_at_least s.now }
{
    s.iter().all(|&n| n >= 4)
}

// The counts of a border's islands, of which i stand in s, and of its vertices.
#[tactic(auto, unfolding(crate::specs::Made::are_counts))]
fn are_border_counts(i: usize, v: usize, s: &[u16]) -> bool
    ensures { result ≡ are_counts 1 i v s.now }
{
    if v < 4 || (v - 4) / 4 < i || s.len() < i {
        return false;
    }
    are_islands(&s[..i]) && outer_of(v, &s[..i]) >= 4
}

#[tactic(auto, unfolding(crate::specs::Made::are_counts))]
pub(crate) fn are_counts(kind: usize, i: usize, v: usize, s: &[u16]) -> bool
    ensures { result ≡ are_counts kind i v s.now }
{
    match kind {
        1 => are_border_counts(i, v, s),
        LINE | BOOK => v >= 2,
        _ => true,
    }
}

// Two vertices within the real range.
fn are_four(a: i64, b: i64, c: i64, d: i64) -> bool
    ensures { result ≡ (is_real a && (is_real b && (is_real c && is_real d))) }
{
    is_real(a) && is_real(b) && is_real(c) && is_real(d)
}

// Every number is within the real range. Two vertices a turn: each question about a sheet walks all of its points here first.
fn are_reals(s: &[i64]) -> bool
    ensures { result ≡ are_reals s.now }
{
    let mut rest = s;
    while rest.len() >= 4 {
        if !are_four(rest[0], rest[1], rest[2], rest[3]) {
            return false;
        }
        rest = &rest[4..];
    }
    rest.iter().all(|&z| is_real(z))
}

// A ring's first and last vertex are equal.
#[tactic(auto, unfolding(crate::specs::Made::is_closed))]
fn is_closed(n: usize, s: &[i64]) -> bool
    requires { 2 * n ≤ length s.now }
    ensures { result ≡ is_closed n s.now }
{
    if n == 0 {
        return true;
    }
    let last = 2 * (n - 1);
    s[last] == s[0] && s[last + 1] == s[1]
}

// Rings of these sizes, one behind the other.
#[tactic(auto, using(crate::proofs::TableWays::sums, crate::proofs::TableWays::closings))]
fn are_closed(sizes: &[u16], s: &[i64]) -> bool
    requires { 2 * sum sizes.now ≤ length s.now }
    ensures { result ≡ are_closed sizes.now s.now }
{
    let mut rest = s;
    for &size in sizes {
        let n = usize::from(size);
        if !is_closed(n, rest) {
            return false;
        }
        rest = &rest[2 * n..];
    }
    true
}

// The outer ring comes first and has the rest of the vertices.
#[tactic(auto, unfolding(crate::specs::Made::are_closed, crate::specs::Made::ring_sizes))]
fn are_rings(v: usize, islands: &[u16], s: &[i64]) -> bool
    requires { (sum islands.now ≤ v) × (2 * v ≤ length s.now) }
    ensures { result ≡ are_closed (ring_sizes v islands.now) s.now }
{
    let n = outer_of(v, islands);
    is_closed(n, s) && are_closed(islands, &s[2 * n..])
}

// Points are wholly held, within the real range, and a border's rings are closed.
#[tactic(auto, unfolding(crate::specs::Made::are_points))]
pub(crate) fn are_points(kind: usize, v: usize, islands: &[u16], s: &[i64]) -> bool
    requires { kind ≡ 1 → sum islands.now ≤ v }
    ensures { result ≡ are_points kind v islands.now s.now }
{
    if s.len() / 2 < v {
        return false;
    }
    are_reals(&s[..2 * v]) && (kind != 1 || are_rings(v, islands, s))
}
