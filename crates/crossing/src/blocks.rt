// How the ring check passes over most pairs of edges: the ring's edges in blocks, at most 24 of them, each with the box round its vertices.
// Nothing here says what a faulty pair is. That edges were passed over rightly is the contract of `onward`.
ghost use Rattle.std.specs.Prelude.{◌≡◌, true, ◌+◌, ◌*◌, ◌-◌, ◌≤◌, ◌<◌, length, get_or, set, pos};
ghost use Rattle.plane.specs.Rings.{all_near};
ghost use Rattle.crossing.specs.Edges.{point_at};
ghost use Rattle.crossing.specs.Search.{faulty-pair};
ghost use Rattle.crossing.specs.Boxes.{EdgeOf, along, Skip, meets_at, Floor, Ceiling, Ranged, beyond, box-most, BlockLength, BlockEnd, Boxed, Boxes, box-apart, Kept};

use crate::{Point, edges_meet, vertex};
use plane::{higher, lower};

// The boxes are few, and their table small, whatever the ring: it stands on the stack.
const BOXES: usize = 24;

// West, east, south and north of each.
pub(crate) const BOX_NUMBERS: usize = 4 * BOXES;

// Blocks of fewer edges are not worth their boxes.
const SHORTEST: usize = 8;

// How many edges a block has, the last one apart.
pub(crate) fn block_length(edges: usize) -> usize
    requires { edges < 9223372036854775808 }
    ensures { BlockLength edges result }
{
    (edges / BOXES + 1).max(SHORTEST)
}

fn block_end(first: usize, size: usize, stop: usize) -> usize
    requires { first + size < 18446744073709551616 }
    ensures { BlockEnd first size stop result }
{
    stop.min(first + size)
}

// A vertex's x along axis 0, its y along axis 1.
fn number_at(points: &[i64], axis: usize, v: usize) -> i64
    requires { (axis ≤ 1) × (2 * v + 1 < length points.now) }
    ensures { result ≡ along points.now axis v }
{
    points[2 * v + axis]
}

// The least number of the vertices from `first` to `last`, along an axis, and the greatest.
fn lowest(points: &[i64], from: usize, axis: usize, first: usize, last: usize) -> i64
    requires { (axis ≤ 1) × (first ≤ last) × (2 * (from + (last + 1)) ≤ length points.now) }
    ensures { Floor (λ v. along points.now axis (from + v)) first last result }
{
    let mut z = number_at(points, axis, from + first);
    let mut v = first;
    while v < last {
        let y = number_at(points, axis, from + (v + 1));
        z = lower(z, y);
        v += 1;
    }
    z
}

fn highest(points: &[i64], from: usize, axis: usize, first: usize, last: usize) -> i64
    requires { (axis ≤ 1) × (first ≤ last) × (2 * (from + (last + 1)) ≤ length points.now) }
    ensures { Ceiling (λ v. along points.now axis (from + v)) first last result }
{
    let mut z = number_at(points, axis, from + first);
    let mut v = first;
    while v < last {
        let y = number_at(points, axis, from + (v + 1));
        z = higher(z, y);
        v += 1;
    }
    z
}

fn put_number(boxes: &mut [i64], at: usize, z: i64)
    requires { at < length boxes.old }
    ensures { boxes.new ≡ set boxes.old at z }
{
    boxes[at] = z;
}

// Stores both at a place.
fn put_range(
    points: &[i64],
    from: usize,
    axis: usize,
    first: usize,
    last: usize,
    boxes: &mut [i64],
    at: usize,
)
    requires { (axis ≤ 1) × (first ≤ last) × (2 * (from + (last + 1)) ≤ length points.now) × (at + 1 < length boxes.old) }
    ensures { Kept boxes.old boxes.new at × Ranged points.now from axis first last boxes.new at }
{
    let low = lowest(points, from, axis, first, last);
    let high = highest(points, from, axis, first, last);
    put_number(boxes, at, low);
    put_number(boxes, at + 1, high);
}

// Stores the box of each block.
pub(crate) fn put_boxes(points: &[i64], from: usize, edges: usize, size: usize, boxes: &mut [i64])
    requires { (2 * (from + (edges + 1)) ≤ length points.now) × BlockLength edges size × (4 * box-most ≤ length boxes.old) }
    ensures { Boxes points.now from edges size boxes.new }
{
    let mut k = 0;
    while k * size < edges {
        let first = k * size;
        let last = block_end(first, size, edges);
        put_range(points, from, 0, first, last, boxes, 4 * k);
        put_range(points, from, 1, first, last, boxes, 4 * k + 2);
        k += 1;
    }
}

// Whether the span from a to b lies beyond the two bounds at a place.
fn is_beyond(boxes: &[i64], at: usize, a: i64, b: i64) -> bool
    requires { at + 1 < length boxes.now }
    ensures { result ≡ beyond (get_or boxes.now at (pos 0)) (get_or boxes.now (at + 1) (pos 0)) a b }
{
    boxes[at + 1] < lower(a, b) || higher(a, b) < boxes[at]
}

// Whether box k lies beyond one side of the box of the edge from a to b.
fn is_apart(boxes: &[i64], k: usize, a: Point, b: Point) -> bool
    requires { 4 * k + 3 < length boxes.now }
    ensures { result ≡ box-apart boxes.now k a b }
{
    is_beyond(boxes, 4 * k, a.x, b.x) || is_beyond(boxes, 4 * k + 2, a.y, b.y)
}

// Whether the edge from a to b and edge k, no neighbours, share a point.
fn meets(points: &[i64], from: usize, edges: usize, k: usize, a: Point, b: Point) -> bool
    requires { EdgeOf points.now from edges a b × (k < edges) }
    ensures { result ≡ meets_at points.now from a b k }
{
    let c = vertex(points, from + k);
    let d = vertex(points, from + (k + 1));
    edges_meet(a, b, c, d)
}

// The next edge from j on, up to `stop`, that shares a point with the edge from a to b.
fn scan(
    points: &[i64],
    from: usize,
    edges: usize,
    j: usize,
    stop: usize,
    a: Point,
    b: Point,
) -> usize
    requires { EdgeOf points.now from edges a b × (j ≤ stop) × (stop ≤ edges) }
    ensures { Skip (meets_at points.now from a b) j stop result }
{
    let mut e = j;
    while e < stop {
        if meets(points, from, edges, e, a, b) {
            return e;
        }
        e += 1;
    }
    e
}

// The same among the edges of block k, which is passed over whole where its box lies apart.
fn scan_block(
    points: &[i64],
    from: usize,
    edges: usize,
    j: usize,
    stop: usize,
    a: Point,
    b: Point,
    size: usize,
    boxes: &[i64],
    k: usize,
) -> usize
    requires { EdgeOf points.now from edges a b × (j ≤ stop) × (stop ≤ edges) × Boxed points.now from edges size boxes.now k × (k * size ≤ j) × (stop ≤ k * size + size) }
    ensures { Skip (meets_at points.now from a b) j stop result }
{
    if is_apart(boxes, k, a, b) {
        return stop;
    }
    scan(points, from, edges, j, stop, a, b)
}

// The same up to the last edge, block by block.
fn next_meeting(
    points: &[i64],
    from: usize,
    edges: usize,
    j: usize,
    a: Point,
    b: Point,
    size: usize,
    boxes: &[i64],
) -> usize
    requires { EdgeOf points.now from edges a b × (j < edges) × BlockLength edges size × Boxes points.now from edges size boxes.now }
    ensures { Skip (meets_at points.now from a b) j (edges - 1) result }
{
    let stop = edges - 1;
    let mut k = j / size;
    let mut e = j;
    while e < stop {
        let end = block_end(k * size, size, stop);
        e = scan_block(points, from, edges, e, end, a, b, size, boxes, k);
        if e < end {
            return e;
        }
        k += 1;
    }
    e
}

// The next edge from j on that is to be paired with edge i, from a to b: those before it share no point with it. Neighbours are not passed over.
pub(crate) fn onward(
    points: &[i64],
    from: usize,
    edges: usize,
    i: usize,
    j: usize,
    a: Point,
    b: Point,
    size: usize,
    boxes: &[i64],
) -> usize
    requires { (i < j) × (j ≤ edges) × (2 * (from + (edges + 1)) ≤ length points.now) × (all_near points.now from (edges + 1) ≡ true) × (a ≡ point_at points.now (from + i)) × (b ≡ point_at points.now (from + (i + 1))) × BlockLength edges size × Boxes points.now from edges size boxes.now }
    ensures { Skip (faulty-pair points.now from edges i) j edges result }
{
    if j < i + 2 || j + 1 >= edges {
        return j;
    }
    next_meeting(points, from, edges, j, a, b, size, boxes)
}
