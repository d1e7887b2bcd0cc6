// The lines of a SUP file (document 02, T-01), stored in the output.
ghost use Rattle.std.specs.Prelude.{◌≡◌, true, ◌+◌, ◌*◌, ◌≤◌, ◌<◌, length, get_or, pos};
ghost use Rattle.writer.specs.Put.{Put};
ghost use Rattle.spelling.specs.Figures.{is_narrow, figure_text};
ghost use Rattle.sup.specs.Lines.{name_width, left_field, fields_line, date_text};
ghost use Rattle.sup.specs.Printing.{are_narrow, named_text};

use spelling::{put_bytes, spell_figure};

const NAME_WIDTH: usize = 11;

const FIGURE_WIDTH: usize = 10;

// The left field: blanks behind the name.
pub(crate) fn put_left(out: &mut [u8], at: usize, name: &[u8]) -> usize
    requires { (length name.now ≤ name_width) × (at + length (left_field name.now) ≤ length out.old) }
    ensures { Put out.old at (left_field name.now) out.new result }
{
    let blanks = [b' '; NAME_WIDTH];
    let size = NAME_WIDTH - name.len();
    let next = put_bytes(out, at, name);
    put_bytes(out, next, &blanks[..size])
}

// A name and the figure at i, whose digits go straight into the output.
fn put_line(out: &mut [u8], at: usize, name: &[u8], figures: &[i64], i: usize) -> usize
    requires { (length name.now ≤ name_width) × (i < length figures.now) × (is_narrow (get_or figures.now i (pos 0)) ≡ true) × (at + length (fields_line name.now (figure_text (get_or figures.now i (pos 0)))) ≤ length out.old) }
    ensures { Put out.old at (fields_line name.now (figure_text (get_or figures.now i (pos 0)))) out.new result }
{
    let figure = figures[i];
    let next = put_left(out, at, name);
    spell_figure(figure, &mut out[next..]);
    put_bytes(out, next + FIGURE_WIDTH, b"\r\n")
}

// Lines whose names stand one behind the other, each as a left field.
pub(crate) fn put_lines(out: &mut [u8], at: usize, names: &[u8], figures: &[i64]) -> usize
    requires { (length names.now ≡ name_width * length figures.now) × (are_narrow figures.now ≡ true) × (at + length (named_text names.now figures.now) ≤ length out.old) }
    ensures { Put out.old at (named_text names.now figures.now) out.new result }
{
    let mut next = at;
    for i in 0..figures.len() {
        let from = NAME_WIDTH * i;
        next = put_line(out, next, &names[from..from + NAME_WIDTH], figures, i);
    }
    next
}

// The first line: the sheet's name, and the date right aligned.
pub(crate) fn put_date(out: &mut [u8], name: &[u8], date: &[u8]) -> usize
    requires { (length name.now ≤ name_width) × (length date.now ≡ 8) × (length (fields_line name.now (date_text date.now)) ≤ length out.old) }
    ensures { Put out.old 0 (fields_line name.now (date_text date.now)) out.new result }
{
    let left_end = put_left(out, 0, name);
    let blanks_end = put_bytes(out, left_end, b"  ");
    let date_end = put_bytes(out, blanks_end, date);
    put_bytes(out, date_end, b"\r\n")
}
