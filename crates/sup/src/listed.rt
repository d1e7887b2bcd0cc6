// The borders that a SUP file lists (document 02, T-01): their lines in order, and the first whose figure is too wide.
ghost use Rattle.std.specs.Prelude.{◌≡◌, true, [], ◌+◌, ◌≤◌, length};
ghost use Rattle.record.specs.declared.Mode.TheVariants.{Loose};
ghost use Rattle.made.specs.Made.{tables, letters_of, none_before, judge_rows};
ghost use Rattle.row.specs.Walk.{first_stand, left_at};
ghost use Rattle.writer.specs.Put.{Put};
ghost use Rattle.spelling.specs.Figures.{is_narrow};
ghost use Rattle.order.specs.SupBorders.{sup_borders, first_long};
ghost use Rattle.sorting.specs.Lines.{sorted_lines};
ghost use Rattle.sup.specs.Lines.{name_width, lines_text};
ghost use Rattle.sup.specs.Sup.{listed_lines, figures_in, wide_from};
ghost use Rattle.sup.specs.Answer.{codes_in_order};
ghost use Rattle.sup.specs.Printing.{are_narrow, metres_left, is_wide_listed, is_any_wide_from};
ghost use Rattle.sup.specs.Raw.{figured_lines, raw_line, raw_text};

use crate::printing::put_left;
use crate::raw::{put_figures, raw_field};
use crate::rounding::metres_of;
use made::{Lent, Sheet};
use order::choosing::is_in_sup;
use order::{letters_at, net_at, next_window, sized};
use row::{Stand, stand_next};
use sorting::sort_lines;
use spelling::{is_narrow, put_bytes};

// The borders of a window.
const WIDTH: usize = 384;

// The line of the first border that is listed, from 1.
const FIRST_LISTED: usize = 8;

// The figure of the border at a stand.
#[tactic(auto, unfolding(crate::specs::Printing::metres_left))]
fn metres_at(lent: &Lent<'_>, d: Stand) -> i64
    ensures { result ≡ metres_left (left_at (tables lent.now) d) }
{
    metres_of(net_at(lent, d))
}

// The row at a stand is listed with a figure that is too wide.
#[tactic(auto, unfolding(crate::specs::Printing::is_wide_listed, order::specs::SupBorders::is_in_sup, border::specs::Borders::border_of))]
fn is_wide_at(sheet: &Sheet<'_>, d: Stand) -> bool
    ensures { result ≡ is_wide_listed sheet.now.header (left_at (tables sheet.now.lent) d) }
{
    is_in_sup(sheet.header, sheet.lent.rows, sheet.lent.letters, d)
        && !is_narrow(metres_at(&sheet.lent, d))
}

// Whether any is, in row order.
fn is_any_wide(sheet: &Sheet<'_>) -> bool
    ensures { result ≡ is_any_wide_from sheet.now.header (tables sheet.now.lent) sheet.now.count first_stand }
{
    let mut d = Stand {
        row: 0,
        letters: 0,
        islands: 0,
        points: 0,
    };
    for _ in 0..sheet.count {
        if is_wide_at(sheet, d) {
            return true;
        }
        d = stand_next(sheet.lent.rows, d);
    }
    false
}

// The first line of such a border, in order; 0 where there is none.
fn wide_listed(sheet: &Sheet<'_>) -> usize
    requires { judge_rows Loose sheet.now.count none_before (tables sheet.now.lent) ≡ Ok tt }
    ensures { result ≡ wide_from 8 (figures_in (listed_lines (codes_in_order sheet.now.header sheet.now.count (tables sheet.now.lent)))) }
{
    sized(&sheet.lent);
    let mut w = next_window(sheet, None);
    let mut i = 0;
    let mut j = 0;
    while j < w.count {
        let d = w.items[j];
        if !is_narrow(metres_at(&sheet.lent, d)) {
            return FIRST_LISTED + i;
        }
        i += 1;
        j += 1;
        if j == WIDTH {
            w = next_window(sheet, Some(d));
            j = 0;
        }
    }
    0
}

// The windows are walked for that line only where there is one to find.
pub(crate) fn first_wide_listed(sheet: &Sheet<'_>) -> usize
    requires { judge_rows Loose sheet.now.count none_before (tables sheet.now.lent) ≡ Ok tt }
    ensures { result ≡ wide_from 8 (figures_in (listed_lines (codes_in_order sheet.now.header sheet.now.count (tables sheet.now.lent)))) }
{
    if is_any_wide(sheet) {
        return wide_listed(sheet);
    }
    0
}

// The line of the border at a stand, as it is put in order.
fn put_raw(out: &mut [u8], at: usize, lent: &Lent<'_>, d: Stand) -> usize
    requires d_len_bound { (length (letters_of (left_at (tables lent.now) d)) ≤ name_width) × (is_narrow (metres_left (left_at (tables lent.now) d)) ≡ true) }
    requires d_in_bounds { at + length (raw_line (left_at (tables lent.now) d)) ≤ length out.old }
    ensures { Put out.old at (raw_line (left_at (tables lent.now) d)) out.new result }
{
    let field = raw_field(metres_at(lent, d));
    let next = put_left(out, at, letters_at(lent.rows, lent.letters, d));
    let end = put_bytes(out, next, &field);
    put_bytes(out, end, b"\r\n")
}

// The lines of the listed borders in row order, as they are put in order.
fn put_raws(out: &mut [u8], at: usize, sheet: &Sheet<'_>) -> usize
    requires points_value { first_long sheet.now.header sheet.now.count (tables sheet.now.lent) ≡ None }
    requires points_value_2 { are_narrow (figures_in (listed_lines (codes_in_order sheet.now.header sheet.now.count (tables sheet.now.lent)))) ≡ true }
    requires points_in_bounds { at + length (raw_text (tables sheet.now.lent) (sup_borders sheet.now.header sheet.now.count (tables sheet.now.lent))) ≤ length out.old }
    ensures { Put out.old at (raw_text (tables sheet.now.lent) (sup_borders sheet.now.header sheet.now.count (tables sheet.now.lent))) out.new result }
{
    let mut d = Stand {
        row: 0,
        letters: 0,
        islands: 0,
        points: 0,
    };
    let mut next = at;
    for _ in 0..sheet.count {
        if is_in_sup(sheet.header, sheet.lent.rows, sheet.lent.letters, d) {
            next = put_raw(out, next, &sheet.lent, d);
        }
        d = stand_next(sheet.lent.rows, d);
    }
    next
}

// Such lines put in order, each with its figure.
fn arrange(s: &mut [u8])
    ensures { s.new ≡ figured_lines (sorted_lines s.old) }
{
    sort_lines(s);
    put_figures(s);
}

// The lines of the listed borders, in order: they are sorted in the output itself.
pub(crate) fn put_listed(out: &mut [u8], at: usize, sheet: &Sheet<'_>) -> usize
    requires points_value { judge_rows Loose sheet.now.count none_before (tables sheet.now.lent) ≡ Ok tt }
    requires points_value_2 { first_long sheet.now.header sheet.now.count (tables sheet.now.lent) ≡ None }
    requires points_value_3 { are_narrow (figures_in (listed_lines (codes_in_order sheet.now.header sheet.now.count (tables sheet.now.lent)))) ≡ true }
    requires points_in_bounds { at + length (lines_text (listed_lines (codes_in_order sheet.now.header sheet.now.count (tables sheet.now.lent)))) ≤ length out.old }
    ensures { Put out.old at (lines_text (listed_lines (codes_in_order sheet.now.header sheet.now.count (tables sheet.now.lent)))) out.new result }
{
    sized(&sheet.lent);
    let end = put_raws(out, at, sheet);
    arrange(&mut out[at..end]);
    end
}
