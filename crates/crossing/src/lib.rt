// The ring check (document 01, "Ring check"): the first faulty pair of a ring's edges, edges from 0.
// The table of points and its rings are those of crate `plane`. All is proved, and the public function has no `requires`.
// An edge of no length is the pair of itself; but between other edges it makes those two share its point, and their pair comes first.
#![tactic(auto)]

mod blocks;

ghost use Rattle.std.specs.Prelude.{◌≡◌, Bool, true, ℕ, ◌+◌, ◌*◌, ◌-◌, ◌≤◌, ◌<◌, length, ℤ, ◌+ℤ◌, ◌-ℤ◌, ◌*ℤ◌};
ghost use Rattle.laws.specs.Whole.{Within};
ghost use Rattle.plane.specs.Rings.{all_near};
ghost use Rattle.crossing.specs.Edges.{span, Close, point_at, side, dot, equal-ends, neighbours-overlap, spans-overlap, beside-line, boxes-overlap, edges-meet};
ghost use Rattle.crossing.specs.Search.{faulty-pair, searched, verdict_of};

use crate::blocks::{BOX_NUMBERS, block_length, onward, put_boxes};
use plane::{NoArea, higher, is_narrow, is_ring, lower};

#[derive(Clone, Copy)]
pub struct Point {
    pub x: i64,
    pub y: i64,
}

// A pair of edges that is faulty, the first not behind the second.
#[derive(Clone, Copy, Debug, PartialEq, Eq)]
pub struct FaultyPair {
    pub first: usize,
    pub second: usize,
}

// Vertex v of the table.
fn vertex(points: &[i64], v: usize) -> Point
    requires { 2 * v + 1 < length points.now }
    ensures { result ≡ point_at points.now v }
{
    Point {
        x: points[2 * v],
        y: points[2 * v + 1],
    }
}

fn cross(ux: i64, uy: i64, wx: i64, wy: i64) -> i64
    requires { Within span ux × Within span uy × Within span wx × Within span wy }
    ensures { result ≡ ux *ℤ wy -ℤ wx *ℤ uy }
{
    ux * wy - wx * uy
}

fn inner(ux: i64, uy: i64, wx: i64, wy: i64) -> i64
    requires { Within span ux × Within span uy × Within span wx × Within span wy }
    ensures { result ≡ ux *ℤ wx +ℤ uy *ℤ wy }
{
    ux * wx + uy * wy
}

// On which side of the line from a to b the point c lies: the sign says it.
fn side_of(a: Point, b: Point, c: Point) -> i64
    requires { Close a b × Close a c }
    ensures { result ≡ side a b c }
{
    cross(b.x - a.x, b.y - a.y, c.x - a.x, c.y - a.y)
}

// (A-B).(C-B).
fn dot_of(a: Point, b: Point, c: Point) -> i64
    requires { Close b a × Close b c }
    ensures { result ≡ dot a b c }
{
    inner(a.x - b.x, a.y - b.y, c.x - b.x, c.y - b.y)
}

fn equal_ends(a: Point, b: Point) -> bool
    ensures { result ≡ equal-ends a b }
{
    a.x == b.x && a.y == b.y
}

// Whether the neighbours AB, BC share more than B.
fn neighbours_overlap(a: Point, b: Point, c: Point) -> bool
    requires { Close b a × Close b c }
    ensures { result ≡ neighbours-overlap a b c }
{
    side_of(b, a, c) == 0 && 0 < dot_of(a, b, c)
}

// Whether c and d lie strictly on one side of the line through a and b.
fn beside_line(a: Point, b: Point, c: Point, d: Point) -> bool
    requires { Close a b × Close a c × Close a d }
    ensures { result ≡ beside-line a b c d }
{
    let s = side_of(a, b, c);
    let t = side_of(a, b, d);
    if 0 < s { 0 < t } else { s < 0 && t < 0 }
}

// Whether the spans from a to b and from c to d, ends counted, share a number.
fn spans_overlap(a: i64, b: i64, c: i64, d: i64) -> bool
    ensures { result ≡ spans-overlap a b c d }
{
    lower(a, b) <= higher(c, d) && lower(c, d) <= higher(a, b)
}

fn boxes_overlap(a: Point, b: Point, c: Point, d: Point) -> bool
    ensures { result ≡ boxes-overlap a b c d }
{
    spans_overlap(a.x, b.x, c.x, d.x) && spans_overlap(a.y, b.y, c.y, d.y)
}

// Whether the edges AB and CD, which are no neighbours, share a point. The boxes come first: most pairs end there.
fn edges_meet(a: Point, b: Point, c: Point, d: Point) -> bool
    requires { Close a b × Close a c × Close a d × Close c d × Close c a × Close c b }
    ensures { result ≡ edges-meet a b c d }
{
    if !boxes_overlap(a, b, c, d) {
        return false;
    }
    !beside_line(a, b, c, d) && !beside_line(c, d, a, b)
}

// Whether edge i, from a to b, and edge j, not before it, are a faulty pair.
fn faulty_pair(
    points: &[i64],
    from: usize,
    edges: usize,
    i: usize,
    j: usize,
    a: Point,
    b: Point,
) -> bool
    requires { (i ≤ j) × (j < edges) × (2 * (from + (edges + 1)) ≤ length points.now) × (all_near points.now from (edges + 1) ≡ true) × (a ≡ point_at points.now (from + i)) × (b ≡ point_at points.now (from + (i + 1))) }
    ensures { result ≡ faulty-pair points.now from edges i j }
{
    if i == j {
        return equal_ends(a, b);
    }
    let d = vertex(points, from + (j + 1));
    if i + 1 == j {
        return neighbours_overlap(a, b, d);
    }
    let c = vertex(points, from + j);
    if i == 0 && j + 1 == edges {
        return neighbours_overlap(c, d, b);
    }
    edges_meet(a, b, c, d)
}

// The first faulty pair: each edge in turn with itself and those after it, the search left at once. The boxes serve `onward` alone.
fn search(points: &[i64], from: usize, edges: usize) -> Option<FaultyPair>
    requires { (2 * (from + (edges + 1)) ≤ length points.now) × (all_near points.now from (edges + 1) ≡ true) }
    ensures { result ≡ searched points.now from edges }
{
    let size = block_length(edges);
    let mut boxes = [0i64; BOX_NUMBERS];
    put_boxes(points, from, edges, size, &mut boxes);
    let mut i = 0;
    let mut j = 0;
    'rows: while i < edges {
        let a = vertex(points, from + i);
        let b = vertex(points, from + (i + 1));
        j = i;
        while j < edges {
            if faulty_pair(points, from, edges, i, j, a, b) {
                break 'rows;
            }
            j = onward(points, from, edges, i, j + 1, a, b, size, &boxes);
        }
        i += 1;
    }
    if i == edges {
        return None;
    }
    Some(FaultyPair {
        first: i,
        second: j,
    })
}

// The ring check of the ring of `count` vertices from vertex `from` on: of its count - 1 edges the first faulty pair, lowest first edge, then lowest second.
#[tactic(auto, unfolding(crate::specs::Search::verdict_of))]
pub fn first_fault(points: &[i64], from: usize, count: usize) -> Result<Option<FaultyPair>, NoArea>
    ensures { result ≡ verdict_of points.now from count }
{
    if !is_ring(points, from, count) {
        return Err(NoArea::Missing);
    }
    if !is_narrow(points, from, count) {
        return Err(NoArea::Wide);
    }
    Ok(search(points, from, count - 1))
}
