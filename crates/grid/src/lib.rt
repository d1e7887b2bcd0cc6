// A grid of 64 rows of 64 cells, and which of its cells have their centre inside a ring (document 02, T-03).
// All is proved, and the public function has no `requires`. Inside, coordinates are doubled and taken from the grid's corner, heights southward: then the
// centres lie at odd multiples of the cell's side, and every product fits. An edge turns over, in each row that it straddles, the cells west of its crossing at once.
#![tactic(auto)]

ghost use Rattle.std.specs.Prelude.{◌≡◌, true, false, ◌+◌, ◌*◌, ◌≤◌, ◌<◌, length, get_or, ltb, pos, nat_abs, ◌+ℤ◌, ◌-ℤ◌, ◌*ℤ◌};
ghost use Rattle.std.specs.Int.Signed.{lt_z, le_z};
ghost use Rattle.laws.specs.Whole.{Within};
ghost use Rattle.number.specs.Number.{is_real};
ghost use Rattle.plane.specs.Rings.{x-at, y-at};
ghost use Rattle.grid.specs.Inside.{twice, centre_at, centre-x, centre-y, edge-counts, ring-covers};
ghost use Rattle.grid.specs.Words.{grid_side, row_word};
ghost use Rattle.grid.specs.Cells.{most_side, is_cell_side, grid-real, by-corner, near-corner, near-from, laid, ring_cells};
ghost use Rattle.grid.specs.Trace.{grid_reach, eastward, southward, CentresBefore, RowsTo, east-from, west-of-edge, Xored, RowsHold};

use plane::is_ring;
use spelling::is_real;

// Rows of a grid, and cells of a row.
const SIDE: usize = 64;

// The longest side of a cell.
const MOST_SIDE: usize = 10_000;

// How far a vertex may lie from the corner, in x and in y.
const FAR: u64 = 40_000_000;

const ALL: u64 = 0xffff_ffff_ffff_ffff;

// How many of 64 centres in line lie before `bound`: the first is `step` from the start, each further one 2 * step more.
fn centres_to(step: usize, bound: usize) -> usize
    requires { (0 < step) × (step ≤ 1600000000000) × (bound ≤ 4611686018427387903) }
    ensures { CentresBefore step (pos bound) result }
{
    if 127 * step < bound {
        return SIDE;
    }
    (bound + (step - 1)) / (2 * step)
}

// The same for a bound that may lie before the start.
fn centres_before(step: usize, bound: i64) -> usize
    requires { (0 < step) × (step ≤ 1600000000000) × Within 4611686018427387903 bound }
    ensures { CentresBefore step bound result }
{
    if bound <= step as i64 {
        return 0;
    }
    centres_to(step, bound as usize)
}

// The first k cells of a row, from the west.
fn west_bits(k: usize) -> u64
    requires { k ≤ grid_side }
    ensures { result ≡ row_word (λ c. ltb c k) grid_side }
{
    if k < SIDE {
        return ALL - (ALL >> k);
    }
    ALL
}

// Where an edge crosses a height, times how far its ends lie apart in height: its ends' x, and how far the other end lies from that height.
fn moment(nx: i64, sx: i64, a: i64, b: i64) -> i64
    requires { Within grid_reach nx × Within grid_reach sx × Within (2 * grid_reach) a × Within (2 * grid_reach) b }
    ensures { result ≡ nx *ℤ a +ℤ sx *ℤ b }
{
    nx * a + sx * b
}

// The cell's side times how far an edge's ends lie apart in height.
fn step_of(nv: i64, sv: i64, cell: usize) -> usize
    requires { Within grid_reach nv × Within grid_reach sv × (lt_z nv sv ≡ true) × (cell ≤ most_side) }
    ensures { result ≡ nat_abs (sv -ℤ nv) * cell }
{
    (sv - nv) as usize * cell
}

// The height of row r's centres.
fn height(cell: usize, r: usize) -> i64
    requires { (cell ≤ most_side) × (r < grid_side) }
    ensures { result ≡ pos (centre_at cell r) }
{
    ((2 * r + 1) * cell) as i64
}

// The cells of the row at height w whose centres lie strictly west of where an edge crosses that height. (nx, nv) is its end
// strictly north of it, (sx, sv) the other.
fn crossing_bits(nx: i64, nv: i64, sx: i64, sv: i64, w: i64, cell: usize) -> u64
    requires { Within grid_reach nx × Within grid_reach nv × Within grid_reach sx × Within grid_reach sv × Within grid_reach w × (lt_z nv w ≡ true) × (le_z w sv ≡ true) × (0 < cell) × (cell ≤ most_side) }
    ensures { result ≡ row_word (λ c. east-from nx nv sx sv w (pos (centre_at cell c))) grid_side }
{
    let step = step_of(nv, sv, cell);
    let m = moment(nx, sx, sv - w, w - nv);
    west_bits(centres_before(step, m))
}

// How many of the 64 rows lie no further south than v.
fn rows_to(cell: usize, v: i64) -> usize
    requires { Within grid_reach v × (0 < cell) × (cell ≤ most_side) }
    ensures { RowsTo cell v result }
{
    centres_before(cell, v + 1)
}

// Turns over, in each row between an edge's ends, the cells strictly west of its crossing there. (nx, nv) is the northern end; `first` rows lie no further
// south than it, `stop` no further than the other.
fn xor_span(
    rows: &mut [u64],
    nx: i64,
    nv: i64,
    sx: i64,
    sv: i64,
    first: usize,
    stop: usize,
    cell: usize,
)
    requires { (length rows.old ≡ grid_side) × Within grid_reach nx × Within grid_reach nv × Within grid_reach sx × Within grid_reach sv × RowsTo cell nv first × RowsTo cell sv stop × (0 < cell) × (cell ≤ most_side) }
    ensures { Xored rows.old rows.new (west-of-edge nx nv sx sv cell) }
{
    for r in first..stop {
        rows[r] ^= crossing_bits(nx, nv, sx, sv, height(cell, r), cell);
    }
}

// Twice how far b lies past a.
fn past(a: i64, b: i64) -> i64
    requires { by-corner a b ≡ true }
    ensures { result ≡ twice (b -ℤ a) }
{
    let d = b - a;
    d + d
}

// Number i of the table.
fn number_at(points: &[i64], i: usize) -> i64
    requires { i < length points.now }
    ensures { result ≡ get_or points.now i (pos 0) }
{
    points[i]
}

// Twice how far vertex v lies east of cx, and south of cy.
fn east_of(points: &[i64], v: usize, cx: i64) -> i64
    requires { (2 * v + 1 < length points.now) × (by-corner cx (x-at points.now v) ≡ true) }
    ensures { result ≡ eastward points.now cx v }
{
    past(cx, number_at(points, 2 * v))
}

fn south_of(points: &[i64], v: usize, cy: i64) -> i64
    requires { (2 * v + 1 < length points.now) × (by-corner cy (y-at points.now v) ≡ true) }
    ensures { result ≡ southward points.now cy v }
{
    past(number_at(points, 2 * v + 1), cy)
}

// The same for the edge from vertex n down to vertex s.
fn xor_down(
    rows: &mut [u64],
    points: &[i64],
    n: usize,
    s: usize,
    first: usize,
    stop: usize,
    cx: i64,
    cy: i64,
    cell: usize,
)
    requires { (length rows.old ≡ grid_side) × (2 * n + 1 < length points.now) × (2 * s + 1 < length points.now) × (near-corner points.now cx cy n ≡ true) × (near-corner points.now cx cy s ≡ true) × RowsTo cell (southward points.now cy n) first × RowsTo cell (southward points.now cy s) stop × (0 < cell) × (cell ≤ most_side) }
    ensures { Xored rows.old rows.new (west-of-edge (eastward points.now cx n) (southward points.now cy n) (eastward points.now cx s) (southward points.now cy s) cell) }
{
    let nx = east_of(points, n, cx);
    let nv = south_of(points, n, cy);
    let sx = east_of(points, s, cx);
    let sv = south_of(points, s, cy);
    xor_span(rows, nx, nv, sx, sv, first, stop, cell);
}

// Turns over each cell for whose centre the edge from vertex v to the next counts. `at` rows lie no further south than the one, `next` than the other.
fn xor_edge(
    rows: &mut [u64],
    points: &[i64],
    v: usize,
    at: usize,
    next: usize,
    cx: i64,
    cy: i64,
    cell: usize,
)
    requires { (length rows.old ≡ grid_side) × (2 * (v + 1) + 1 < length points.now) × (near-corner points.now cx cy v ≡ true) × (near-corner points.now cx cy (v + 1) ≡ true) × RowsTo cell (southward points.now cy v) at × RowsTo cell (southward points.now cy (v + 1)) next × (0 < cell) × (cell ≤ most_side) }
    ensures { Xored rows.old rows.new (λ r c. edge-counts points.now v (centre-x cx cell c) (centre-y cy cell r)) }
{
    if at < next {
        xor_down(rows, points, v, v + 1, at, next, cx, cy, cell);
        return;
    }
    if next < at {
        xor_down(rows, points, v + 1, v, next, at, cx, cy, cell);
    }
}

// Whether z is not more than FAR from c.
fn is_by(c: i64, z: i64) -> bool
    ensures { result ≡ by-corner c z }
{
    z.abs_diff(c) <= FAR
}

// Whether vertex v is not, in x and in y.
fn is_near(points: &[i64], v: usize, cx: i64, cy: i64) -> bool
    requires { 2 * v + 1 < length points.now }
    ensures { result ≡ near-corner points.now cx cy v }
{
    is_by(cx, number_at(points, 2 * v)) && is_by(cy, number_at(points, 2 * v + 1))
}

// How many of the 64 rows lie no further south than vertex v.
fn rows_at(points: &[i64], v: usize, cy: i64, cell: usize) -> usize
    requires { (2 * v + 1 < length points.now) × (by-corner cy (y-at points.now v) ≡ true) × (0 < cell) × (cell ≤ most_side) }
    ensures { RowsTo cell (southward points.now cy v) result }
{
    rows_to(cell, south_of(points, v, cy))
}

// Turns over the ring's cells, and says whether all of its vertices are near the corner; where they are not, the rows are of no use.
fn xor_ring(
    rows: &mut [u64],
    points: &[i64],
    from: usize,
    count: usize,
    cx: i64,
    cy: i64,
    cell: usize,
) -> bool
    requires { RowsHold (λ r c. false) rows.old × (laid points.now from count cx cy cell ≡ true) }
    ensures { (result ≡ near-from points.now cx cy from count) × (result ≡ true → RowsHold (ring-covers points.now from count cx cy cell) rows.new) }
{
    if !is_near(points, from, cx, cy) {
        return false;
    }
    let mut at = rows_at(points, from, cy, cell);
    for k in 0..count - 1 {
        let v = from + k;
        if !is_near(points, v + 1, cx, cy) {
            return false;
        }
        let next = rows_at(points, v + 1, cy, cell);
        xor_edge(rows, points, v, at, next, cx, cy, cell);
        at = next;
    }
    true
}

// Whether both ends of the grid lie within the real range.
fn is_grid(cx: i64, cy: i64, cell: usize) -> bool
    requires { cell ≤ most_side }
    ensures { result ≡ grid-real cx cy cell }
{
    if !is_real(cx) || !is_real(cy) {
        return false;
    }
    let d = (SIDE * cell) as i64;
    is_real(cx + d) && is_real(cy - d)
}

// Whether a cell may have such a side.
#[tactic(auto, unfolding(crate::specs::Cells::is_cell_side))]
pub fn is_cell_side(cell: usize) -> bool
    ensures { result ≡ is_cell_side cell }
{
    (1..=MOST_SIDE).contains(&cell)
}

// Whether there is such a cell, such a ring and such a grid.
#[tactic(auto, unfolding(crate::specs::Cells::laid, crate::specs::Cells::is_cell_side))]
fn is_laid(points: &[i64], from: usize, count: usize, cx: i64, cy: i64, cell: usize) -> bool
    ensures { result ≡ laid points.now from count cx cy cell }
{
    is_cell_side(cell) && is_ring(points, from, count) && is_grid(cx, cy, cell)
}

// The cells whose centres lie inside the ring of `count` vertices from vertex `from` on, the northern row first, west in the highest bit: the grid's
// north-west corner is (cx, cy), its cells are `cell` mm wide and high. None where there is no such ring, cell or grid, or where a vertex lies too far
// from the corner.
pub fn ring_cells(
    points: &[i64],
    from: usize,
    count: usize,
    cx: i64,
    cy: i64,
    cell: usize,
) -> Option<[u64; 64]>
    ensures { result ≡ ring_cells points.now from count cx cy cell }
{
    if !is_laid(points, from, count, cx, cy, cell) {
        return None;
    }
    let mut rows = [0u64; 64];
    if !xor_ring(&mut rows, points, from, count, cx, cy, cell) {
        return None;
    }
    Some(rows)
}
