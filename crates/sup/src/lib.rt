// The SUP file of a sheet (document 02, T-01; the specification's section 1.2): a name and a date, counts, areas in square metres.
// All of it is proved, and no public function has a `requires`. All is judged before anything is stored; past the text nothing is altered.
#![tactic(auto)]

pub mod dating;
pub mod exact;
mod listed;
mod printing;
mod raw;
mod rounding;
mod totalling;

ghost use Rattle.std.specs.Prelude.{◌≡◌, true, ◌*◌, ◌+◌, ◌≤◌, length};
ghost use Rattle.laws.specs.Lists.{over};
ghost use Rattle.record.specs.declared.Mode.TheVariants.{Loose};
ghost use Rattle.made.specs.Made.{tables, none_before, judge_rows};
ghost use Rattle.tally.specs.Tally.{Good};
ghost use Rattle.order.specs.SupBorders.{sup_borders, first_long};
ghost use Rattle.sup.specs.declared.NoSup.TheVariants.{Refused};
ghost use Rattle.sup.specs.Date.{is_date};
ghost use Rattle.sup.specs.Lines.{name_width};
ghost use Rattle.sup.specs.Sup.{exact_total, is_limited, first_wide, sup_text};
ghost use Rattle.sup.specs.Answer.{codes_in_order, sheet_sup, lined_sup, printed_sup, dated_sup, sup_of, sup_output};

use crate::dating::is_date;
use crate::listed::{first_wide_listed, put_listed};
use crate::printing::{put_date, put_lines};
use crate::totalling::{first_wide, foot_figures, head_figures, sheet_total};
use made::Sheet;
use order::{first_long, sized, sup_count};
use tally::{Untallied, tally_sheet};

// Why there is no SUP file: no room (14), with the needed length; the sheet's refusal or its tally's (6, 15, 17, 18); a bad date (21); the first
// row whose listed code is too long (22); TOTALE past the limit (18); the first line whose figure is too wide (23).
#[derive(Clone, Copy, Debug, PartialEq, Eq)]
pub enum NoSup {
    NoRoom(usize),
    Refused(Untallied),
    BadDate,
    CodeTooLong(usize),
    PastTotal,
    WideFigure(usize),
}

impl From<Untallied> for NoSup {
    ghost from_gives = { λ u r. r ≡ Refused u };

    fn from(untallied: Untallied) -> NoSup {
        NoSup::Refused(untallied)
    }
}

// A sheet's tally, or why there is none (6, 15, 17, 18); TOTALE before it is rounded, where it keeps its limit (else 18); the other areas, in the file's
// order: buildings, parcels, roads, waters, insets, CONFINE.
#[derive(Clone, Copy)]
pub struct ExactSheet {
    pub outcome: Result<(), Untallied>,
    pub figures: [i64; 24],
    pub total: Option<i64>,
    pub areas: [i64; 6],
}

// The bytes of a line.
const LINE_WIDTH: usize = 23;

// The lines besides those of the listed borders.
const OTHER_LINES: usize = 14;

// The lines before the listed borders, and one.
const FIRST_LISTED: usize = 8;

// The first line whose figure is too wide (23); 0 where there is none.
fn first_wide_line(sheet: &Sheet<'_>, figures: &[i64], total: i64, listed: usize) -> usize
    requires points_value { (judge_rows Loose sheet.now.count none_before (tables sheet.now.lent) ≡ Ok tt) × Good figures.now × (total ≡ exact_total sheet.now.header.kind figures.now) }
    requires listed_value { listed ≡ length (sup_borders sheet.now.header sheet.now.count (tables sheet.now.lent)) }
    ensures { result ≡ first_wide sheet.now.header.kind figures.now (codes_in_order sheet.now.header sheet.now.count (tables sheet.now.lent)) }
{
    let head = head_figures(figures);
    let in_head = first_wide(&head, 2);
    if in_head != 0 {
        return in_head;
    }
    let in_list = first_wide_listed(sheet);
    if in_list != 0 {
        return in_list;
    }
    let foot = foot_figures(sheet.header.kind, figures, total);
    sized(&sheet.lent);
    first_wide(&foot, FIRST_LISTED + listed)
}

// The text of a sheet whose lines all fit.
fn store(sheet: &Sheet<'_>, date: &[u8], figures: &[i64], total: i64, out: &mut [u8])
    requires points_value { (judge_rows Loose sheet.now.count none_before (tables sheet.now.lent) ≡ Ok tt) × Good figures.now × (total ≡ exact_total sheet.now.header.kind figures.now) × (is_date date.now ≡ true) × (length sheet.now.header.name ≤ name_width) }
    requires points_value_2 { (first_long sheet.now.header sheet.now.count (tables sheet.now.lent) ≡ None) × (first_wide sheet.now.header.kind figures.now (codes_in_order sheet.now.header sheet.now.count (tables sheet.now.lent)) ≡ 0) }
    requires points_in_bounds { length (sup_text sheet.now.header date.now figures.now (codes_in_order sheet.now.header sheet.now.count (tables sheet.now.lent))) ≤ length out.old }
    ensures { out.new ≡ over (sup_text sheet.now.header date.now figures.now (codes_in_order sheet.now.header sheet.now.count (tables sheet.now.lent))) out.old }
{
    let head = head_figures(figures);
    let foot = foot_figures(sheet.header.kind, figures, total);
    let head_at = put_date(out, &sheet.header.name, date);
    let listed_at = put_lines(
        out,
        head_at,
        b"N.FABBRIC  N.PARTIC   N.STRADE   N.ACQUE    N.SVIL-ALL FABBRIC    ",
        &head,
    );
    let foot_at = put_listed(out, listed_at, sheet);
    put_lines(
        out,
        foot_at,
        b"PARTIC     STRADE     ACQUE      SVIL-ALL   TOTALE     CONFINE    SBILANCIO  ",
        &foot,
    );
}

// 23, then the room, then the text.
fn lined_sup(
    sheet: &Sheet<'_>,
    date: &[u8],
    figures: &[i64],
    total: i64,
    out: &mut [u8],
) -> Result<usize, NoSup>
    requires points_value { (judge_rows Loose sheet.now.count none_before (tables sheet.now.lent) ≡ Ok tt) × Good figures.now × (total ≡ exact_total sheet.now.header.kind figures.now) × (is_date date.now ≡ true) × (length sheet.now.header.name ≤ name_width) }
    requires points_value_2 { first_long sheet.now.header sheet.now.count (tables sheet.now.lent) ≡ None }
    ensures value { result ≡ lined_sup sheet.now.header date.now figures.now (codes_in_order sheet.now.header sheet.now.count (tables sheet.now.lent)) (length out.old) }
    ensures out_after { out.new ≡ sup_output result (sup_text sheet.now.header date.now figures.now (codes_in_order sheet.now.header sheet.now.count (tables sheet.now.lent))) out.old }
{
    let listed = sup_count(
        sheet.header,
        sheet.count,
        sheet.lent.rows,
        sheet.lent.letters,
    );
    let wide = first_wide_line(sheet, figures, total, listed);
    if wide != 0 {
        return Err(NoSup::WideFigure(wide));
    }
    let needed = LINE_WIDTH * (OTHER_LINES + listed);
    if needed > out.len() {
        return Err(NoSup::NoRoom(needed));
    }
    store(sheet, date, figures, total, out);
    Ok(needed)
}

// 18 for the combined total, then the lines.
fn printed_sup(
    sheet: &Sheet<'_>,
    date: &[u8],
    figures: &[i64],
    out: &mut [u8],
) -> Result<usize, NoSup>
    requires points_value { (judge_rows Loose sheet.now.count none_before (tables sheet.now.lent) ≡ Ok tt) × Good figures.now × (is_date date.now ≡ true) × (length sheet.now.header.name ≤ name_width) }
    requires points_value_2 { first_long sheet.now.header sheet.now.count (tables sheet.now.lent) ≡ None }
    ensures value { result ≡ printed_sup sheet.now.header date.now figures.now (codes_in_order sheet.now.header sheet.now.count (tables sheet.now.lent)) (length out.old) }
    ensures out_after { out.new ≡ sup_output result (sup_text sheet.now.header date.now figures.now (codes_in_order sheet.now.header sheet.now.count (tables sheet.now.lent))) out.old }
{
    let Some(total) = sheet_total(sheet.header.kind, figures) else {
        return Err(NoSup::PastTotal);
    };
    lined_sup(sheet, date, figures, total, out)
}

// 21, then 22, then the totals.
fn dated_sup(
    sheet: &Sheet<'_>,
    date: &[u8],
    figures: &[i64],
    out: &mut [u8],
) -> Result<usize, NoSup>
    requires { (judge_rows Loose sheet.now.count none_before (tables sheet.now.lent) ≡ Ok tt) × Good figures.now × (length sheet.now.header.name ≤ name_width) }
    ensures value { result ≡ dated_sup sheet.now.header sheet.now.count (tables sheet.now.lent) date.now figures.now (length out.old) }
    ensures out_after { out.new ≡ sup_output result (sup_text sheet.now.header date.now figures.now (codes_in_order sheet.now.header sheet.now.count (tables sheet.now.lent))) out.old }
{
    if !is_date(date) {
        return Err(NoSup::BadDate);
    }
    match first_long(
        sheet.header,
        sheet.count,
        sheet.lent.rows,
        sheet.lent.letters,
    ) {
        Some(k) => Err(NoSup::CodeTooLong(k)),
        None => printed_sup(sheet, date, figures, out),
    }
}

// The SUP file of a sheet with a date of eight digits, to the start of `out`; its figures are those of the sheet's tally.
pub fn sup_text(sheet: &Sheet<'_>, date: &[u8], out: &mut [u8]) -> Result<usize, NoSup>
    ensures value { result ≡ sup_of sheet.now.header sheet.now.count (tables sheet.now.lent) date.now (length out.old) }
    ensures out_after { out.new ≡ sup_output result (sheet_sup sheet.now.header sheet.now.count (tables sheet.now.lent) date.now) out.old }
{
    let taken = tally_sheet(sheet);
    taken.outcome?;
    dated_sup(sheet, date, &taken.tally.figures, out)
}
