// A SUP file that came with a delivery, checked against its sheet (document 02, T-10): accepted, or the first line that is wrong (25).
// All of it is proved, and no public function has a `requires`. Names, order, counts and totals are those that T-01 writes (crate `sup`); a figure
// may be rounded in another way, as far as is allowed for its line. The file is read where it stands.
#![tactic(auto)]

mod allowing;
mod walking;

ghost use Rattle.std.specs.Prelude.{◌≡◌, ◌+◌, ◌^◌, ◌<◌, length, get_or, pos};
ghost use Rattle.laws.specs.Whole.{Within};
ghost use Rattle.record.specs.declared.Mode.TheVariants.{Loose};
ghost use Rattle.made.specs.Made.{tables, none_before, judge_rows};
ghost use Rattle.classes.specs.declared.Class.TheVariants.{Building};
ghost use Rattle.tally.specs.Tally.{Good};
ghost use Rattle.order.specs.SupBorders.{sup_borders};
ghost use Rattle.sup.specs.Sup.{net_in, exact_total};
ghost use Rattle.sup.specs.Totals.{total_of};
ghost use Rattle.sup.specs.ExactAreas.{exact_areas};
ghost use Rattle.sup.specs.Answer.{codes_in_order};
ghost use Rattle.supcheck.specs.declared.Unaccepted.TheVariants.{Refused};
ghost use Rattle.supcheck.specs.Due.{balance_in, head_due, foot_due};
ghost use Rattle.supcheck.specs.Checked.{right_from, right_lines, checked_lines, total_checked, sup_checked};

use crate::allowing::{foot_allowed, foot_exact, head_allowed, head_exact};
use crate::walking::{right_lines, right_listed};
use made::Sheet;
use order::{sized, sup_count};
use sup::exact::sheet_exact;
use supline::reading::{figure_in, is_right_date, line_from};
use tally::Untallied;

// Why a file is not the sheet's: the sheet's refusal or its tally's (6, 15, 17, 18); TOTALE past the limit (18); the first wrong line, from 1 (25).
#[derive(Clone, Copy, Debug, PartialEq, Eq)]
pub enum Unaccepted {
    Refused(Untallied),
    PastTotal,
    WrongLine(usize),
}

impl From<Untallied> for Unaccepted {
    ghost from_gives = { λ u r. r ≡ Refused u };

    fn from(untallied: Untallied) -> Unaccepted {
        Unaccepted::Refused(untallied)
    }
}

// The bytes of a line.
const LINE_WIDTH: usize = 23;

// The lines besides those of the listed borders.
const OTHER_LINES: usize = 14;

// The lines before the listed borders besides the first, and the first behind the date.
const HEAD_LINES: usize = 6;

const FIRST_LISTED: usize = 7;

// TOTALE and CONFINE in a file that lists no borders.
const TOTAL_LINE: usize = 11;

const CONFINE_LINE: usize = 12;

// Before the listed borders: right lines at the beginning.
fn right_head(s: &[u8], figures: &[i64], areas: &[i64]) -> usize
    requires { Good figures.now × (length areas.now ≡ 6) × (get_or areas.now 0 (pos 0) ≡ net_in figures.now Building) }
    ensures { result ≡ right_from 1 (head_due figures.now) s.now }
{
    let exact = head_exact(figures, areas);
    let allowed = head_allowed(figures);
    right_lines(
        s,
        1,
        b"N.FABBRIC  N.PARTIC   N.STRADE   N.ACQUE    N.SVIL-ALL FABBRIC    ",
        &exact,
        &allowed,
    )
}

// The file's TOTALE less its CONFINE.
fn balance_in(s: &[u8], listed: usize) -> i64
    requires { listed < 2 ^ 60 }
    ensures { (result ≡ balance_in listed s.now) × Within 460000000000 result }
{
    let total = figure_in(line_from(s, TOTAL_LINE + listed));
    let confine = figure_in(line_from(s, CONFINE_LINE + listed));
    total - confine
}

// Behind the listed borders.
fn right_foot(
    s: &[u8],
    kind: usize,
    figures: &[i64],
    areas: &[i64],
    total: i64,
    listed: usize,
) -> usize
    requires { Good figures.now × (areas.now ≡ exact_areas kind figures.now) × (total ≡ exact_total kind figures.now) × (listed < 2 ^ 60) }
    ensures { result ≡ right_from (7 + listed) (foot_due kind figures.now (balance_in listed s.now)) s.now }
{
    let exact = foot_exact(areas, total, balance_in(s, listed));
    let allowed = foot_allowed(kind, figures);
    right_lines(
        s,
        FIRST_LISTED + listed,
        b"PARTIC     STRADE     ACQUE      SVIL-ALL   TOTALE     CONFINE    SBILANCIO  ",
        &exact,
        &allowed,
    )
}

// The right lines at the beginning of the file: the date, those before the listed borders, theirs, those behind.
fn right_count(
    sheet: &Sheet<'_>,
    s: &[u8],
    figures: &[i64],
    areas: &[i64],
    total: i64,
    listed: usize,
) -> usize
    requires points_value { (judge_rows Loose sheet.now.count none_before (tables sheet.now.lent) ≡ Ok tt) × Good figures.now × (areas.now ≡ exact_areas sheet.now.header.kind figures.now) × (total ≡ exact_total sheet.now.header.kind figures.now) }
    requires listed_value { listed ≡ length (sup_borders sheet.now.header sheet.now.count (tables sheet.now.lent)) }
    ensures { result ≡ right_lines sheet.now.header figures.now (codes_in_order sheet.now.header sheet.now.count (tables sheet.now.lent)) s.now }
{
    sized(&sheet.lent);
    if !is_right_date(&sheet.header.name, s) {
        return 0;
    }
    let in_head = right_head(s, figures, areas);
    if in_head < HEAD_LINES {
        return 1 + in_head;
    }
    let in_list = right_listed(s, sheet);
    if in_list < listed {
        return FIRST_LISTED + in_list;
    }
    FIRST_LISTED + listed + right_foot(s, sheet.header.kind, figures, areas, total, listed)
}

// Whether all lines are right, and nothing stands behind them.
fn checked_lines(
    sheet: &Sheet<'_>,
    s: &[u8],
    figures: &[i64],
    areas: &[i64],
    total: i64,
) -> Result<(), Unaccepted>
    requires { (judge_rows Loose sheet.now.count none_before (tables sheet.now.lent) ≡ Ok tt) × Good figures.now × (areas.now ≡ exact_areas sheet.now.header.kind figures.now) × (total ≡ exact_total sheet.now.header.kind figures.now) }
    ensures { result ≡ checked_lines sheet.now.header figures.now (codes_in_order sheet.now.header sheet.now.count (tables sheet.now.lent)) s.now }
{
    let listed = sup_count(
        sheet.header,
        sheet.count,
        sheet.lent.rows,
        sheet.lent.letters,
    );
    let right = right_count(sheet, s, figures, areas, total, listed);
    if right != OTHER_LINES + listed || s.len() != LINE_WIDTH * right {
        return Err(Unaccepted::WrongLine(right + 1));
    }
    Ok(())
}

// 18 of the combined total, then the file.
fn total_checked(
    sheet: &Sheet<'_>,
    s: &[u8],
    figures: &[i64],
    areas: &[i64],
    total: Option<i64>,
) -> Result<(), Unaccepted>
    requires { (judge_rows Loose sheet.now.count none_before (tables sheet.now.lent) ≡ Ok tt) × Good figures.now × (areas.now ≡ exact_areas sheet.now.header.kind figures.now) × (total ≡ total_of (exact_total sheet.now.header.kind figures.now)) }
    ensures { result ≡ total_checked sheet.now.header figures.now (codes_in_order sheet.now.header sheet.now.count (tables sheet.now.lent)) s.now }
{
    match total {
        None => Err(Unaccepted::PastTotal),
        Some(d) => checked_lines(sheet, s, figures, areas, d),
    }
}

// Checks the SUP file `s` against a sheet.
pub fn sup_check(sheet: &Sheet<'_>, s: &[u8]) -> Result<(), Unaccepted>
    ensures { result ≡ sup_checked sheet.now.header sheet.now.count (tables sheet.now.lent) s.now }
{
    let exact = sheet_exact(sheet);
    exact.outcome?;
    total_checked(sheet, s, &exact.figures, &exact.areas, exact.total)
}
