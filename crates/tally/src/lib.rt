// Tallies (document 01, "Areas"): for each class, borders, outer total, islands, island total.
// All of it is proved, and no public function has a `requires`.
#![tactic(auto)]

ghost use Rattle.std.specs.Prelude.{◌≡◌, true, Ok};
ghost use Rattle.record.specs.declared.Mode.TheVariants.{Loose};
ghost use Rattle.made.specs.Made.{tables, is_made, none_before, judge_rows};
ghost use Rattle.tally.specs.Tally.{empty_tally, is_figure, is_tally, is_fit, are_fit, Good, tally_on, add_of};
ghost use Rattle.tally.specs.Take.{unfound_as, Took, border_taken, row_taken, front_taken, taken_of, tally_rows, tally_of, refused_of};

use area::{Areas, areas_of};
use border::{Border, border_with, is_border};
use classes::{class_of, index_of};
use heading::Header;
use made::{Fault, Flaw, Lent, Sheet, count_at, fault_of, judge, rest_of};
use plane::NoArea;
use record::Mode;
use record::refusal::Refusal;
use row::{Unfound, left_at, seek};

// The classes in their order, each with its four figures.
#[derive(Clone, Copy)]
pub struct Tally {
    pub figures: [i64; 24],
}

// What is wrong with the sheet (6, 15); no such border (19); a figure is past the limit (18) or a ring is too wide (17), with the row.
#[derive(Clone, Copy, Debug, PartialEq, Eq)]
pub enum Untallied {
    Sheet(Flaw),
    Missing,
    Full(usize),
    Wide(usize),
}

impl From<Unfound> for Untallied {
    ghost from_gives = { λ e r. r ≡ unfound_as e };

    fn from(unfound: Unfound) -> Untallied {
        match unfound {
            Unfound::Missing => Untallied::Missing,
            Unfound::Refused(flaw) => Untallied::Sheet(flaw),
        }
    }
}

// The tally, and whether it took all: a refused tally is said too.
#[derive(Clone, Copy)]
pub struct Taken {
    pub tally: Tally,
    pub outcome: Result<(), Untallied>,
}

const LETTERS_PLACE: usize = 9;

const CLASS_FIGURES: usize = 4;

// The most that a figure may be.
const LIMIT: i64 = 9_000_000_000_000_000_000;

// Before the first border.
pub fn empty() -> Tally
    ensures { result ≡ empty_tally }
{
    Tally { figures: [0; 24] }
}

#[tactic(auto, unfolding(crate::specs::Tally::is_figure))]
fn is_figure(z: i64) -> bool
    ensures { result ≡ is_figure z }
{
    (0..=LIMIT).contains(&z)
}

// No figure is negative or past the limit.
fn is_tally(t: Tally) -> bool
    ensures { result ≡ is_tally t.figures }
{
    t.figures.iter().all(|&z| is_figure(z))
}

// A figure and what is added to it are figures, and so is their sum. It is only taken where it keeps the limit.
fn is_fit(figure: i64, more: i64) -> bool
    requires { is_figure figure ≡ true }
    ensures { result ≡ is_fit figure more }
{
    is_figure(more) && figure <= LIMIT - more
}

// A class's four figures with those of a border.
#[tactic(auto, unfolding(crate::specs::Tally::are_fit))]
fn are_fit(a: i64, b: i64, c: i64, d: i64, outer: i64, islands: usize, inner: i64) -> bool
    requires { (is_figure a ≡ true) × (is_figure b ≡ true) × (is_figure c ≡ true) × (is_figure d ≡ true) }
    ensures { result ≡ are_fit a b c d outer islands inner }
{
    let Ok(islands) = i64::try_from(islands) else {
        return false;
    };
    is_fit(a, 1) && is_fit(b, outer) && is_fit(c, islands) && is_fit(d, inner)
}

// The figures take those of a border in place. It is judged after the whole border, and refused alters nothing.
fn grow(figures: &mut [i64; 24], border: Border, areas: Areas) -> bool
    requires { Good figures.old }
    ensures { (result ≡ (add_of (tally_on figures.old) border areas.outer areas.inner).fits) × (figures.new ≡ (add_of (tally_on figures.old) border areas.outer areas.inner).tally.figures) }
{
    let islands = border.islands;
    let k = CLASS_FIGURES * index_of(border.class);
    let a = figures[k];
    let b = figures[k + 1];
    let c = figures[k + 2];
    let d = figures[k + 3];
    if !are_fit(a, b, c, d, areas.outer, islands, areas.inner) {
        return false;
    }
    figures[k] = a + 1;
    figures[k + 1] = b + areas.outer;
    figures[k + 2] = c + islands as i64;
    figures[k + 3] = d + areas.inner;
    true
}

// The border at the front of the tables, which is row `row` of the sheet: 17 for any of its rings, then 18.
fn take_border(
    figures: &mut [i64; 24],
    header: Header,
    row: usize,
    part: &Lent<'_>,
) -> Result<(), Untallied>
    requires { Good figures.old × (is_made (tables part.now) ≡ true) }
    ensures { Took (border_taken header row (tables part.now) (tally_on figures.old)) figures.new result }
{
    let l = count_at(part.rows, LETTERS_PLACE);
    let border = border_with(class_of(header, &part.letters[..l]), part.rows);
    let n = border.islands;
    match areas_of(border.vertices, &part.islands[..n], part.points) {
        Err(NoArea::Missing) => Err(Untallied::Missing),
        Err(NoArea::Wide) => Err(Untallied::Wide(row)),
        Ok(areas) => {
            if grow(figures, border, areas) {
                return Ok(());
            }
            Err(Untallied::Full(row))
        }
    }
}

// The row at the front of the tables: any that is no border alters nothing.
#[tactic(auto, unfolding(crate::specs::Take::row_taken))]
fn take_row(
    figures: &mut [i64; 24],
    header: Header,
    row: usize,
    part: &Lent<'_>,
) -> Result<(), Untallied>
    requires { Good figures.old × (is_made (tables part.now) ≡ true) }
    ensures { Took (row_taken header row (tables part.now) (tally_on figures.old)) figures.new result }
{
    if is_border(part.rows) {
        return take_border(figures, header, row, part);
    }
    Ok(())
}

// The row at the front of the tables, which is row `row` of a sheet, into a tally that is handed in.
fn take_at(t: Tally, header: Header, row: usize, part: &Lent<'_>) -> Taken
    requires { is_made (tables part.now) ≡ true }
    ensures { result ≡ front_taken header row (tables part.now) t }
{
    if !is_border(part.rows) {
        return Taken {
            tally: t,
            outcome: Err(Untallied::Missing),
        };
    }
    if !is_tally(t) {
        return Taken {
            tally: t,
            outcome: Err(Untallied::Full(row)),
        };
    }
    let mut figures = t.figures;
    let outcome = take_border(&mut figures, header, row, part);
    Taken {
        tally: Tally { figures },
        outcome,
    }
}

// A running tally takes the border of row `row`; refused, it is as it was handed in.
#[tactic(auto, unfolding(crate::specs::Take::taken_of))]
pub fn take(t: Tally, sheet: &Sheet<'_>, row: usize) -> Taken
    ensures { result ≡ taken_of t sheet.now.header sheet.now.count (tables sheet.now.lent) row }
{
    match seek(sheet, row) {
        Ok(d) => take_at(t, sheet.header, row, &left_at(&sheet.lent, d)),
        Err(unfound) => Taken {
            tally: t,
            outcome: Err(Untallied::from(unfound)),
        },
    }
}

// A running tally, lent by its owner, takes one border: thin over `take`.
pub fn take_in(t: &mut Tally, sheet: &Sheet<'_>, row: usize) -> Result<(), Untallied>
    ensures { (result ≡ (taken_of t.old sheet.now.header sheet.now.count (tables sheet.now.lent) row).outcome) × (t.new ≡ (taken_of t.old sheet.now.header sheet.now.count (tables sheet.now.lent) row).tally) }
{
    let taken = take(*t, sheet, row);
    *t = taken.tally;
    taken.outcome
}

// The rows in order, each on what the rows before it leave of the tables. Refused, the tally is all 0.
fn tally_rows(sheet: &Sheet<'_>) -> Taken
    requires { judge_rows Loose sheet.now.count none_before (tables sheet.now.lent) ≡ Ok tt }
    ensures { result ≡ tally_rows sheet.now.header sheet.now.count 0 (tables sheet.now.lent) empty_tally }
{
    let mut figures = [0i64; 24];
    let mut left = sheet.lent;
    for k in 0..sheet.count {
        if let Err(refused) = take_row(&mut figures, sheet.header, k, &left) {
            return Taken {
                tally: empty(),
                outcome: Err(refused),
            };
        }
        left = rest_of(&left);
    }
    Taken {
        tally: Tally { figures },
        outcome: Ok(()),
    }
}

// The tally of a sheet: the header (6) and the sheet (15) are judged first.
#[tactic(auto, unfolding(crate::specs::Take::tally_of))]
pub fn tally_sheet(sheet: &Sheet<'_>) -> Taken
    ensures { result ≡ tally_of sheet.now.header sheet.now.count (tables sheet.now.lent) }
{
    match judge(Mode::Loose, sheet) {
        Ok(()) => tally_rows(sheet),
        Err(flaw) => Taken {
            tally: empty(),
            outcome: Err(Untallied::Sheet(flaw)),
        },
    }
}

// What was refused, in the paper's numbers.
pub fn refused_of(outcome: Result<(), Untallied>) -> Fault
    ensures { result ≡ refused_of outcome }
{
    match outcome {
        Ok(()) => Fault { number: 0, row: 0 },
        Err(Untallied::Sheet(flaw)) => fault_of(Err(flaw)),
        Err(Untallied::Missing) => Fault {
            number: Refusal::NoSuch.number(),
            row: 0,
        },
        Err(Untallied::Full(row)) => Fault {
            number: Refusal::PastLimit.number(),
            row,
        },
        Err(Untallied::Wide(row)) => Fault {
            number: Refusal::TooWide.number(),
            row,
        },
    }
}
