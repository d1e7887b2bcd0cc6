// How many lines of a SUP file are right at the beginning (document 02, T-10).
ghost use Rattle.std.specs.Prelude.{◌≡◌, ◌+◌, ◌*◌, ◌^◌, ◌<◌, length, pos};
ghost use Rattle.record.specs.declared.Mode.TheVariants.{Loose};
ghost use Rattle.made.specs.Made.{tables, none_before, judge_rows, letters_of};
ghost use Rattle.row.specs.Walk.{left_at};
ghost use Rattle.order.specs.SupOrder.{net_left};
ghost use Rattle.sup.specs.Lines.{name_width};
ghost use Rattle.sup.specs.Answer.{codes_in_order};
ghost use Rattle.supline.specs.Right.{due, due_line, is_right_line};
ghost use Rattle.supcheck.specs.Due.{listed_due};
ghost use Rattle.supcheck.specs.Checked.{right_from};
ghost use Rattle.supcheck.specs.Walking.{packed_due};

use made::{Lent, Sheet};
use order::{guided_window, letters_at, net_at, sized};
use row::Stand;
use supline::is_right_line;
use supline::reading::line_from;

const NAME_WIDTH: usize = 11;

// The borders of a window.
const WIDTH: usize = 384;

// The lines before the listed borders.
const FIRST_LISTED: usize = 7;

// Of lines whose names stand one behind the other, each as a left field; the first is due as line `first`.
pub(crate) fn right_lines(
    s: &[u8],
    first: usize,
    names: &[u8],
    exact: &[i64],
    allowed: &[i64],
) -> usize
    requires { (length names.now ≡ name_width * length exact.now) × (length allowed.now ≡ length exact.now) × (first + length exact.now < 2 ^ 64) }
    ensures { result ≡ right_from first (packed_due names.now exact.now allowed.now) s.now }
{
    for i in 0..exact.len() {
        let from = NAME_WIDTH * i;
        if !is_right_line(
            &names[from..from + NAME_WIDTH],
            exact[i],
            allowed[i],
            line_from(s, first + i),
        ) {
            return i;
        }
    }
    exact.len()
}

// The first line of s is right for the border at a stand.
fn is_right_border(s: &[u8], lent: &Lent<'_>, d: Stand) -> bool
    ensures { result ≡ is_right_line (due_line (letters_of (left_at (tables lent.now) d)) (due (net_left (left_at (tables lent.now) d)) (pos 1))) s.now }
{
    let net = net_at(lent, d);
    is_right_line(letters_at(lent.rows, lent.letters, d), net, 1, s)
}

// A guide for the window that begins at line `first`: the name in the line behind it, which none of its borders comes after if the file is
// right. None where the file ends before. It promises nothing: a guide never changes a window.
fn guide(s: &[u8], first: usize) -> &[u8] {
    let line = line_from(line_from(s, first), WIDTH);
    if line.len() < NAME_WIDTH {
        return &line[..0];
    }
    &line[..NAME_WIDTH]
}

// Of the listed borders' lines, in order.
pub(crate) fn right_listed(s: &[u8], sheet: &Sheet<'_>) -> usize
    requires { judge_rows Loose sheet.now.count none_before (tables sheet.now.lent) ≡ Ok tt }
    ensures { result ≡ right_from 7 (listed_due (codes_in_order sheet.now.header sheet.now.count (tables sheet.now.lent))) s.now }
{
    sized(&sheet.lent);
    let mut w = guided_window(sheet, None, guide(s, FIRST_LISTED));
    let mut i = 0;
    let mut j = 0;
    while j < w.count {
        let d = w.items[j];
        if !is_right_border(line_from(s, FIRST_LISTED + i), &sheet.lent, d) {
            return i;
        }
        i += 1;
        j += 1;
        if j == WIDTH {
            w = guided_window(sheet, Some(d), guide(s, FIRST_LISTED + i));
            j = 0;
        }
    }
    i
}
