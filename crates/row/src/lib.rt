// A row of a sheet that is handed in (document 01, "Refusal numbers"): every question about a row first has the header judged
// (6), then the sheet (15), then finds the row (19), by its own starts (document 02, T-07). All of it is proved, and no public function has a
// `requires`.
#![tactic(auto)]

ghost use Rattle.std.specs.Prelude.{◌≡◌, ◌+◌, ◌*◌, ◌≤◌, length};
ghost use Rattle.kinds.specs.Kinds.{row_width};
ghost use Rattle.made.specs.Made.{tables};
ghost use Rattle.row.specs.declared.Unfound.TheVariants.{Refused};
ghost use Rattle.row.specs.Walk.{stand_after, own_stand, left_at};
ghost use Rattle.row.specs.Seek.{sought_of};

use kinds::{FIRST_ISLAND_PLACE, FIRST_LETTER_PLACE, FIRST_POINT_PLACE, ROW_WIDTH};
use made::{Flaw, Lent, Sheet, count_at, count_of, judge};
use record::Mode;

// Where a row's own part of the four tables begins.
#[derive(Clone, Copy)]
pub struct Stand {
    pub row: usize,
    pub letters: usize,
    pub islands: usize,
    pub points: usize,
}

// Why a row is not found: there is none (19); or what is wrong with the sheet (6, 15).
#[derive(Clone, Copy, Debug, PartialEq, Eq)]
pub enum Unfound {
    Missing,
    Refused(Flaw),
}

impl From<Flaw> for Unfound {
    ghost from_gives = { λ f r. r ≡ Refused f };

    fn from(flaw: Flaw) -> Unfound {
        Unfound::Refused(flaw)
    }
}

const LETTERS_PLACE: usize = 9;

const ISLANDS_PLACE: usize = 10;

const VERTICES_PLACE: usize = 11;

// Past the row that a walk stands at, and its own part of the tables; for rows that were judged no sum wraps.
#[tactic(auto, unfolding(crate::specs::Walk::stand_after))]
pub fn stand_next(rows: &[i64], d: Stand) -> Stand
    ensures { result ≡ stand_after rows.now d }
{
    let Some(left) = rows.get(d.row..) else {
        return d;
    };
    let vertices = count_at(left, VERTICES_PLACE);
    Stand {
        row: d.row.wrapping_add(ROW_WIDTH),
        letters: d.letters.wrapping_add(count_at(left, LETTERS_PLACE)),
        islands: d.islands.wrapping_add(count_at(left, ISLANDS_PLACE)),
        points: d.points.wrapping_add(vertices.wrapping_add(vertices)),
    }
}

// Where row k stands, by its own starts.
fn stand_at(k: usize, rows: &[i64]) -> Stand
    requires { row_width * k + row_width ≤ length rows.now }
    ensures { result ≡ own_stand k rows.now }
{
    let row = ROW_WIDTH * k;
    let own = &rows[row..];
    Stand {
        row,
        letters: count_of(own[FIRST_LETTER_PLACE]),
        islands: count_of(own[FIRST_ISLAND_PLACE]),
        points: 2 * count_of(own[FIRST_POINT_PLACE]),
    }
}

// What is left of the tables where a row stands; past the end of one of them, none of it.
pub fn left_at<'a>(lent: &Lent<'a>, d: Stand) -> Lent<'a>
    ensures { tables result ≡ left_at (tables lent.now) d }
{
    Lent {
        rows: &lent.rows[d.row.min(lent.rows.len())..],
        letters: &lent.letters[d.letters.min(lent.letters.len())..],
        islands: &lent.islands[d.islands.min(lent.islands.len())..],
        points: &lent.points[d.points.min(lent.points.len())..],
    }
}

// Where row `row` of the sheet stands. Any code is well made.
#[tactic(auto, unfolding(crate::specs::Seek::sought_of))]
pub fn seek(sheet: &Sheet<'_>, row: usize) -> Result<Stand, Unfound>
    ensures { result ≡ sought_of sheet.now.header sheet.now.count (tables sheet.now.lent) row }
{
    judge(Mode::Loose, sheet)?;
    if row < sheet.count {
        return Ok(stand_at(row, sheet.lent.rows));
    }
    Err(Unfound::Missing)
}
