// A border's rings and their areas (document 01, "Areas"): the outer ring comes first, its islands behind it.
// All is proved, and no public function has a `requires`: each answers for any counts and any tables, and nothing wraps.
#![tactic(auto)]

ghost use Rattle.std.specs.Prelude.{◌≡◌, [], ◌+◌, ◌≤◌, length};
ghost use Rattle.plane.specs.Rings.{most};
ghost use Rattle.made.specs.Made.{tables, tables_of, sum};
ghost use Rattle.row.specs.Walk.{word_most, cell_in};
ghost use Rattle.area.specs.BorderRings.{total_from, areas_of, net_of, ring_of};
ghost use Rattle.area.specs.Questions.{ring_refused, row_refused, ring_of_row, ring_at, net_area_of, ring_area_at, net_area_at};

use made::{Flaw, Sheet, count_at, outer_of};
use plane::{NoArea, doubled_area};
use row::{Unfound, left_at, seek};

// The most vertices that a sheet gives a border.
const MOST: usize = 9999;

// The kind of a border's row.
const BORDER: usize = 1;

const ISLANDS_PLACE: usize = 10;

const VERTICES_PLACE: usize = 11;

// The doubled area of a border's outer ring, and of all its islands together.
#[derive(Clone, Copy, Debug, PartialEq, Eq)]
pub struct Areas {
    pub outer: i64,
    pub inner: i64,
}

// A ring: its first vertex, counted from the border's first or in the table of points, and its vertices.
#[derive(Clone, Copy, Debug, PartialEq, Eq)]
pub struct RingPlace {
    pub from: usize,
    pub count: usize,
}

// Why a border of a sheet has no area: a ring is too wide (17); no such border or ring (19); or what is wrong with the sheet (6, 15).
#[derive(Clone, Copy, Debug, PartialEq, Eq)]
pub enum AreaRefusal {
    Wide,
    Missing,
    Refused(Flaw),
}

impl From<NoArea> for AreaRefusal {
    ghost from_gives = { λ e r. r ≡ ring_refused e };

    fn from(none: NoArea) -> AreaRefusal {
        match none {
            NoArea::Wide => AreaRefusal::Wide,
            NoArea::Missing => AreaRefusal::Missing,
        }
    }
}

impl From<Unfound> for AreaRefusal {
    ghost from_gives = { λ e r. r ≡ row_refused e };

    fn from(unfound: Unfound) -> AreaRefusal {
        match unfound {
            Unfound::Missing => AreaRefusal::Missing,
            Unfound::Refused(flaw) => AreaRefusal::Refused(flaw),
        }
    }
}

// Rings of these sizes, one behind the other from vertex `from` on: their doubled areas together.
fn total_area(points: &[i64], from: usize, sizes: &[u16]) -> Result<i64, NoArea>
    requires { from + sum sizes.now ≤ most }
    ensures { result ≡ total_from points.now from sizes.now }
{
    let mut total: i64 = 0;
    let mut at = from;
    for &size in sizes {
        let n = usize::from(size);
        total += doubled_area(points, at, n)?;
        at += n;
    }
    Ok(total)
}

// The areas of a border of v vertices, whose first stands first in `points`; the first ring that has none is the answer.
#[tactic(auto, unfolding(crate::specs::BorderRings::areas_of))]
pub fn areas_of(v: usize, islands: &[u16], points: &[i64]) -> Result<Areas, NoArea>
    ensures { result ≡ areas_of v islands.now points.now }
{
    if MOST < v {
        return Err(NoArea::Missing);
    }
    let n = outer_of(v, islands);
    let outer = doubled_area(points, 0, n)?;
    let inner = total_area(points, n, islands)?;
    Ok(Areas { outer, inner })
}

// The doubled area of a border without its islands; below 0 where they are larger than its outer ring.
pub fn net_of(v: usize, islands: &[u16], points: &[i64]) -> Result<i64, NoArea>
    ensures { result ≡ net_of (areas_of v islands.now points.now) }
{
    let areas = areas_of(v, islands, points)?;
    Ok(areas.outer - areas.inner)
}

// Ring 0 is the outer one, ring i island i; counted from the border's first vertex.
pub fn ring_of(v: usize, islands: &[u16], ring: usize) -> Option<RingPlace>
    ensures { result ≡ ring_of v islands.now ring }
{
    let outer = outer_of(v, islands);
    if outer == 0 || islands.len() < ring {
        return None;
    }
    if ring == 0 {
        return Some(RingPlace {
            from: 0,
            count: outer,
        });
    }
    let own = &islands[ring - 1..];
    Some(RingPlace {
        from: outer_of(v, own),
        count: usize::from(own[0]),
    })
}

// A ring of the first row, whose vertices begin at vertex `first` of the table of points. A row that is no border has none.
#[tactic(auto, unfolding(crate::specs::Questions::ring_of_row))]
fn ring_of_row(rows: &[i64], islands: &[u16], first: usize, ring: usize) -> Option<RingPlace>
    requires { (cell_in rows.now 10 ≤ length islands.now) × (cell_in rows.now 0 ≡ 1 → first + cell_in rows.now 11 ≤ word_most) }
    ensures { result ≡ ring_of_row (tables_of rows.now [] islands.now []) first ring }
{
    if count_at(rows, 0) != BORDER {
        return None;
    }
    let i = count_at(rows, ISLANDS_PLACE);
    let v = count_at(rows, VERTICES_PLACE);
    let own = ring_of(v, &islands[..i], ring)?;
    Some(RingPlace {
        from: first + own.from,
        count: own.count,
    })
}

// The net of the first row.
#[tactic(auto, unfolding(crate::specs::Questions::net_area_of))]
fn net_area_of(rows: &[i64], islands: &[u16], points: &[i64]) -> Result<i64, NoArea>
    requires { cell_in rows.now 10 ≤ length islands.now }
    ensures { result ≡ net_area_of (tables_of rows.now [] islands.now points.now) }
{
    if count_at(rows, 0) != BORDER {
        return Err(NoArea::Missing);
    }
    let i = count_at(rows, ISLANDS_PLACE);
    let v = count_at(rows, VERTICES_PLACE);
    net_of(v, &islands[..i], points)
}

// A ring of a border of the sheet, in the table of points: ring 0 is the outer one, ring i island i.
#[tactic(auto, unfolding(crate::specs::Questions::ring_at, crate::specs::Questions::ring_of_row))]
pub fn ring_at(sheet: &Sheet<'_>, row: usize, ring: usize) -> Result<RingPlace, Unfound>
    ensures { result ≡ ring_at sheet.now.header sheet.now.count (tables sheet.now.lent) row ring }
{
    let d = seek(sheet, row)?;
    let own = left_at(&sheet.lent, d);
    ring_of_row(own.rows, own.islands, d.points / 2, ring).ok_or(Unfound::Missing)
}

// The doubled area of one ring of a border. 17 is of that ring alone.
#[tactic(auto, unfolding(crate::specs::Questions::ring_area_at))]
pub fn ring_area(sheet: &Sheet<'_>, row: usize, ring: usize) -> Result<i64, AreaRefusal>
    ensures { result ≡ ring_area_at sheet.now.header sheet.now.count (tables sheet.now.lent) row ring }
{
    let place = ring_at(sheet, row, ring)?;
    Ok(doubled_area(sheet.lent.points, place.from, place.count)?)
}

// The doubled net area of a border. 17 is of any of its rings.
#[tactic(auto, unfolding(crate::specs::Questions::net_area_at, crate::specs::Questions::net_area_of))]
pub fn net_area(sheet: &Sheet<'_>, row: usize) -> Result<i64, AreaRefusal>
    ensures { result ≡ net_area_at sheet.now.header sheet.now.count (tables sheet.now.lent) row }
{
    let d = seek(sheet, row)?;
    let own = left_at(&sheet.lent, d);
    Ok(net_area_of(own.rows, own.islands, own.points)?)
}
