// Rings of vertices in a table of points, and their doubled areas (document 01, "Areas").
// The table has x and y after each other, in whole millimetres; a ring is `count` vertices of it, from vertex `from` on.
// All is proved, and no public function has a `requires`: each answers for any table and any numbers, and nothing wraps.
#![tactic(auto)]

ghost use Rattle.std.specs.Prelude.{◌≡◌, Bool, true, ◌&&◌, ℕ, ◌+◌, ◌*◌, ◌-◌, ◌≤◌, ◌<◌, length, ℤ, pos, nat_abs, ◌-ℤ◌, ◌*ℤ◌};
ghost use Rattle.laws.specs.Whole.{Within, low_z, high_z};
ghost use Rattle.plane.specs.Rings.{reach, x-at, y-at, held, near, narrow};
ghost use Rattle.plane.specs.Frames.{Least, Greatest};
ghost use Rattle.plane.specs.Areas.{sum-limit, area_of};

// How far a vertex may lie from its ring's first, in x and in y.
const REACH: u64 = 20_000_000;

// The most vertices that a sheet gives a ring.
const MOST: usize = 9999;

// Why a ring has no area.
#[derive(Clone, Copy, Debug, PartialEq, Eq)]
pub enum NoArea {
    // Refusal 17: a vertex lies too far from the ring's first.
    Wide,
    // The table holds no such ring.
    Missing,
}

#[derive(Clone, Copy)]
struct Frame {
    west: i64,
    east: i64,
    south: i64,
    north: i64,
}

// Whether a and b are at most REACH apart.
#[tactic(auto, unfolding(crate::specs::Rings::near))]
fn within_reach(a: i64, b: i64) -> bool
    ensures { result ≡ near a b }
{
    b.abs_diff(a) <= REACH
}

// The coordinates of vertex v of the table.
fn x_of(points: &[i64], v: usize) -> i64
    requires { 2 * v + 1 < length points.now }
    ensures { result ≡ x-at points.now v }
{
    points[2 * v]
}

fn y_of(points: &[i64], v: usize) -> i64
    requires { 2 * v + 1 < length points.now }
    ensures { result ≡ y-at points.now v }
{
    points[2 * v + 1]
}

// The lower and the higher of two numbers.
pub fn lower(a: i64, b: i64) -> i64
    ensures { result ≡ low_z a b }
{
    a.min(b)
}

pub fn higher(a: i64, b: i64) -> i64
    ensures { result ≡ high_z a b }
{
    a.max(b)
}

// Whether the table holds a ring of `count` vertices from vertex `from` on: 1 to 9999 of them.
#[tactic(auto, unfolding(crate::specs::Rings::held))]
pub fn is_ring(points: &[i64], from: usize, count: usize) -> bool
    ensures { result ≡ held (length points.now) from count }
{
    let room = points.len() / 2;
    (1..=MOST).contains(&count) && from <= room && count <= room - from
}

// The least and the greatest x and y of a ring that the table holds.
#[tactic(auto, using(crate::proofs::RingLaws::ring_held))]
fn frame_of(points: &[i64], from: usize, count: usize) -> Frame
    requires { held (length points.now) from count ≡ true }
    ensures { Least (λ k. x-at points.now (from + k)) count result.west × Greatest (λ k. x-at points.now (from + k)) count result.east × Least (λ k. y-at points.now (from + k)) count result.south × Greatest (λ k. y-at points.now (from + k)) count result.north }
{
    let mut west = x_of(points, from);
    let mut east = x_of(points, from);
    let mut south = y_of(points, from);
    let mut north = y_of(points, from);
    for k in 1..count {
        let x = x_of(points, from + k);
        let y = y_of(points, from + k);
        west = lower(west, x);
        east = higher(east, x);
        south = lower(south, y);
        north = higher(north, y);
    }
    Frame {
        west,
        east,
        south,
        north,
    }
}

// Whether the four sides of a frame are near a point.
fn is_near(x: i64, y: i64, frame: Frame) -> bool
    ensures { result ≡ (near x frame.west && (near x frame.east && (near y frame.south && near y frame.north))) }
{
    within_reach(x, frame.west)
        && within_reach(x, frame.east)
        && within_reach(y, frame.south)
        && within_reach(y, frame.north)
}

// Whether the table holds such a ring, and each vertex of it is near its first: refusal 17 where the second fails. Its frame tells.
pub fn is_narrow(points: &[i64], from: usize, count: usize) -> bool
    ensures { result ≡ narrow points.now from count }
{
    if !is_ring(points, from, count) {
        return false;
    }
    let frame = frame_of(points, from, count);
    is_near(x_of(points, from), y_of(points, from), frame)
}

// How far b lies from a that is near it.
fn away(a: i64, b: i64) -> i64
    requires { near a b ≡ true }
    ensures { result ≡ b -ℤ a }
{
    b - a
}

// What an edge adds to the signed sum, its two ends taken from the ring's first vertex.
fn edge(x1: i64, y1: i64, x2: i64, y2: i64) -> i64
    requires { Within reach x1 × Within reach y1 × Within reach x2 × Within reach y2 }
    ensures { result ≡ x1 *ℤ y2 -ℤ x2 *ℤ y1 }
{
    x1 * y2 - x2 * y1
}

fn absolute(z: i64) -> i64
    requires { Within sum-limit z }
    ensures { result ≡ pos (nat_abs z) }
{
    z.abs()
}

// The doubled area of a ring that the table holds: each vertex is fetched once, judged, and its edge added. An edge less than vertices.
#[tactic(auto, using(crate::proofs::RingLaws::ring_held))]
fn area_of(points: &[i64], from: usize, count: usize) -> Result<i64, NoArea>
    requires { held (length points.now) from count ≡ true }
    ensures { result ≡ area_of points.now from count }
{
    let x = x_of(points, from);
    let y = y_of(points, from);
    let mut x1: i64 = 0;
    let mut y1: i64 = 0;
    let mut s: i64 = 0;
    for k in 0..count - 1 {
        let a = x_of(points, from + (k + 1));
        let b = y_of(points, from + (k + 1));
        if !within_reach(x, a) || !within_reach(y, b) {
            return Err(NoArea::Wide);
        }
        let x2 = away(x, a);
        let y2 = away(y, b);
        s += edge(x1, y1, x2, y2);
        x1 = x2;
        y1 = y2;
    }
    Ok(absolute(s))
}

// The doubled area of the ring of `count` vertices from vertex `from` on, in square millimetres.
#[tactic(auto, unfolding(crate::specs::Areas::area_of))]
pub fn doubled_area(points: &[i64], from: usize, count: usize) -> Result<i64, NoArea>
    ensures { result ≡ area_of points.now from count }
{
    if !is_ring(points, from, count) {
        return Err(NoArea::Missing);
    }
    area_of(points, from, count)
}
