// Label masks (document 02, T-03): which cells of a grid of 64 rows of 64 have their centre inside a border of a sheet. A package above the sheet
// library, for masks only. All is proved, and no public function has a `requires`. A ring's cells are crate `grid`'s; a border's are its rings' turned over each other.
#![tactic(auto)]

ghost use Rattle.std.specs.Prelude.{◌≡◌, true, ◌&&◌, ◌∷◌, ◌≤◌, length};
ghost use Rattle.std.specs.Int.Count.{ones};
ghost use Rattle.plane.specs.Areas.{area_of};
ghost use Rattle.made.specs.Made.{tables, ring_sizes};
ghost use Rattle.row.specs.Walk.{cell_in};
ghost use Rattle.area.specs.BorderRings.{total_from, areas_of};
ghost use Rattle.grid.specs.Inside.{ring-covers};
ghost use Rattle.grid.specs.Words.{grid_side, set_bits};
ghost use Rattle.grid.specs.Cells.{grid-real, near-from};
ghost use Rattle.grid.specs.Trace.{RowsHold};
ghost use Rattle.mask.specs.Covers.{covers, all-traced, TurnedOver};
ghost use Rattle.mask.specs.Width.{width_of, widths_of};
ghost use Rattle.mask.specs.Masks.{undrawn, border_mask, mask_of, mask_of_row, mask_at};

use grid::{is_cell_side, ring_cells};
use made::{Flaw, Lent, Sheet, count_at, count_of, outer_of};
use plane::{NoArea, is_narrow, is_ring};
use row::{Unfound, left_at, seek};

// The kind of a border's row, and places in a row.
const BORDER: usize = 1;

const ISLANDS_PLACE: usize = 10;

const VERTICES_PLACE: usize = 11;

// The most vertices that a sheet gives a border.
const MOST: usize = 9999;

// Rows of a grid.
const SIDE: usize = 64;

// Why there is no mask.
#[derive(Clone, Copy, Debug, PartialEq, Eq)]
pub enum Unmasked {
    // Refusal 26: the cell's side is not 1 to 10,000 mm.
    BadSide,
    // Refusal 17: one of the rings is too wide.
    Wide,
    // Refusal 20: the grid leaves the real range, or a vertex lies too far from its corner.
    OffGrid,
    // Refusal 19: no such border.
    Missing,
    // What is wrong with the sheet (6, 15).
    Refused(Flaw),
}

// How many cells are covered, and which: the northern row first, west in the highest bit. All 0 where it is refused, as is promised of a refusal.
#[derive(Clone, Copy)]
pub struct Mask {
    pub answer: Result<usize, Unmasked>,
    pub rows: [u64; 64],
}

// Whether the table holds the ring of n vertices from vertex `from` on, and whether it is too wide: what its area would answer.
#[tactic(auto, unfolding(plane::specs::Areas::area_of))]
fn width_of(points: &[i64], from: usize, n: usize) -> Result<(), NoArea>
    ensures { result ≡ width_of (area_of points.now from n) }
{
    if !is_ring(points, from, n) {
        return Err(NoArea::Missing);
    }
    if !is_narrow(points, from, n) {
        return Err(NoArea::Wide);
    }
    Ok(())
}

// The same of rings of these sizes, one behind the other: the first refusal.
fn widths_from(points: &[i64], from: usize, sizes: &[u16]) -> Result<(), NoArea>
    ensures { result ≡ width_of (total_from points.now from sizes.now) }
{
    let mut at = from;
    for &size in sizes {
        let n = usize::from(size);
        width_of(points, at, n)?;
        at += n;
    }
    Ok(())
}

// The same of a border of v vertices, whose first stands first in `points`.
fn widths_of(v: usize, islands: &[u16], points: &[i64]) -> Result<(), NoArea>
    ensures { result ≡ widths_of (areas_of v islands.now points.now) }
{
    if MOST < v {
        return Err(NoArea::Missing);
    }
    let n = outer_of(v, islands);
    width_of(points, 0, n)?;
    widths_from(points, n, islands)
}

// Turns over each cell of `rows` that `cells` has.
fn turn_over(rows: &mut [u64], cells: &[u64])
    requires { (length rows.old ≡ grid_side) × (length cells.now ≡ grid_side) }
    ensures { TurnedOver rows.old cells.now rows.new }
{
    for r in 0..SIDE {
        rows[r] ^= cells[r];
    }
}

// Turns over the cells of rings of these sizes, one behind the other from vertex `from` on, in rows that hold the outer ring's, and says whether all could
// be traced; where they could not, the rows are of no use.
fn turn_islands(
    rows: &mut [u64],
    points: &[i64],
    from: usize,
    sizes: &[u16],
    cx: i64,
    cy: i64,
    cell: usize,
) -> bool
    requires { RowsHold (ring-covers points.now 0 from cx cy cell) rows.old }
    ensures { (result ≡ all-traced points.now from sizes.now cx cy cell) × (result ≡ true → RowsHold (covers points.now (from ∷ sizes.now) cx cy cell) rows.new) }
{
    let mut at = from;
    for &size in sizes {
        let n = usize::from(size);
        let Some(cells) = ring_cells(points, at, n, cx, cy, cell) else {
            return false;
        };
        turn_over(rows, &cells);
        at += n;
    }
    true
}

// Set bits of one row.
fn ones_of(w: u64) -> usize
    ensures { (result ≡ ones w) × (result ≤ grid_side) }
{
    w.count_ones() as usize
}

// Set bits of all rows.
fn covered_in(rows: &[u64]) -> usize
    requires { length rows.now ≤ grid_side }
    ensures { result ≡ set_bits rows.now }
{
    let mut n = 0;
    for &row in rows {
        n += ones_of(row);
    }
    n
}

fn blank_of(refusal: Unmasked) -> Mask
    ensures { result ≡ undrawn refusal }
{
    let rows = [0u64; 64];
    Mask {
        answer: Err(refusal),
        rows,
    }
}

// A border whose rings can be traced where the grid and all of its vertices lie where they may.
fn draw_border(v: usize, islands: &[u16], points: &[i64], cx: i64, cy: i64, cell: usize) -> Mask
    requires { all-traced points.now 0 (ring_sizes v islands.now) cx cy cell ≡ (grid-real cx cy cell && near-from points.now cx cy 0 v) }
    ensures { result ≡ border_mask v islands.now points.now cx cy cell }
{
    let n = outer_of(v, islands);
    let Some(mut rows) = ring_cells(points, 0, n, cx, cy, cell) else {
        return blank_of(Unmasked::OffGrid);
    };
    if !turn_islands(&mut rows, points, n, islands, cx, cy, cell) {
        return blank_of(Unmasked::OffGrid);
    }
    Mask {
        answer: Ok(covered_in(&rows)),
        rows,
    }
}

// The mask of a border of v vertices, whose first stands first in `points`: the grid's north-west corner is (cx, cy), its cells are `cell` mm wide and high.
pub fn mask_border(v: usize, islands: &[u16], points: &[i64], cx: i64, cy: i64, cell: usize) -> Mask
    ensures { result ≡ mask_of v islands.now points.now cx cy cell }
{
    if !is_cell_side(cell) {
        return blank_of(Unmasked::BadSide);
    }
    match widths_of(v, islands, points) {
        Err(NoArea::Missing) => blank_of(Unmasked::Missing),
        Err(NoArea::Wide) => blank_of(Unmasked::Wide),
        Ok(()) => draw_border(v, islands, points, cx, cy, cell),
    }
}

// The mask of the first row.
fn mask_of_row(part: &Lent<'_>, cx: i64, cy: i64, cell: usize) -> Mask
    requires { cell_in part.now.rows.now 10 ≤ length part.now.islands.now }
    ensures { result ≡ mask_of_row (tables part.now) cx cy cell }
{
    if count_at(part.rows, 0) != BORDER {
        return blank_of(Unmasked::Missing);
    }
    let i = count_at(part.rows, ISLANDS_PLACE);
    let v = count_at(part.rows, VERTICES_PLACE);
    mask_border(v, &part.islands[..i], part.points, cx, cy, cell)
}

// The mask of a border of the sheet: the grid's north-west corner is (cx, cy), its cells are `side` mm wide and high.
pub fn mask_of(sheet: &Sheet<'_>, row: usize, cx: i64, cy: i64, side: i64) -> Mask
    ensures { result ≡ mask_at sheet.now.header sheet.now.count (tables sheet.now.lent) row cx cy side }
{
    match seek(sheet, row) {
        Err(Unfound::Refused(flaw)) => blank_of(Unmasked::Refused(flaw)),
        Err(Unfound::Missing) => blank_of(Unmasked::Missing),
        Ok(d) => mask_of_row(&left_at(&sheet.lent, d), cx, cy, count_of(side)),
    }
}
