// What stands in a line of a SUP file (document 02, T-10): its fields, its figure, its date.
ghost use Rattle.std.specs.Prelude.{◌≡◌, true, ◌+◌, ◌*◌, ◌^◌, ◌≤◌, length};
ghost use Rattle.laws.specs.Lists.{holds};
ghost use Rattle.laws.specs.Whole.{Within};
ghost use Rattle.number.specs.Number.{value};
ghost use Rattle.spelling.specs.Figures.{figure_width, is_narrow, figure_text};
ghost use Rattle.supline.specs.Right.{line_from, right_field, figure_said, figure_in, is_fields, is_right_date};

use record::is_same;
use spelling::{put_bytes, spell_figure};
use sup::dating::is_date;

// The bytes of a line, and of its fields.
const LINE_WIDTH: usize = 23;

const NAME_WIDTH: usize = 11;

const FIGURE_WIDTH: usize = 10;

// Where the fields end, and where the date begins.
const FIELDS_END: usize = 21;

const DATE_PLACE: usize = 13;

// The file from line k on; nothing, where it ends before.
pub fn line_from(s: &[u8], k: usize) -> &[u8]
    ensures { result.now ≡ line_from s.now k }
{
    if k > s.len() / LINE_WIDTH {
        return &s[s.len()..];
    }
    &s[LINE_WIDTH * k..]
}

#[tactic(auto, unfolding(crate::specs::Right::right_field))]
fn right_field(s: &[u8]) -> &[u8]
    ensures { result.now ≡ right_field s.now }
{
    let right = &s[NAME_WIDTH.min(s.len())..];
    &right[..FIGURE_WIDTH.min(right.len())]
}

// The number that the digits of a field make.
fn value_of(s: &[u8]) -> usize
    requires { length s.now ≤ figure_width }
    ensures { (result ≡ value 0 s.now) × (result + 23 ≤ 23 * 10 ^ figure_width) }
{
    let mut n = 0;
    for &b in s {
        n = n * 10 + usize::from(b.saturating_sub(b'0'));
    }
    n
}

fn has_minus(s: &[u8]) -> bool
    ensures { result ≡ holds s.now 45 }
{
    s.contains(&b'-')
}

fn figure_said(s: &[u8]) -> i64
    requires { length s.now ≤ figure_width }
    ensures { (result ≡ figure_said s.now) × Within 230000000000 result }
{
    let n = value_of(s) as i64;
    if has_minus(s) {
        return -n;
    }
    n
}

// The figure in the first line of s.
pub fn figure_in(s: &[u8]) -> i64
    ensures { (result ≡ figure_in s.now) × Within 230000000000 result }
{
    figure_said(right_field(s))
}

// The first line of s is that of a name and a right field.
fn is_fields(name: &[u8], right: &[u8], s: &[u8]) -> bool
    requires { length right.now ≡ figure_width }
    ensures { result ≡ is_fields name.now right.now s.now }
{
    if s.len() < LINE_WIDTH {
        return false;
    }
    let size = name.len();
    if size > NAME_WIDTH {
        return false;
    }
    let blanks = [b' '; NAME_WIDTH];
    if !is_same(&s[..size], name) {
        return false;
    }
    if !is_same(&s[size..NAME_WIDTH], &blanks[..NAME_WIDTH - size]) {
        return false;
    }
    if !is_same(&s[NAME_WIDTH..FIELDS_END], right) {
        return false;
    }
    is_same(&s[FIELDS_END..LINE_WIDTH], b"\r\n")
}

// It is that of a name and a figure.
pub(crate) fn is_line(name: &[u8], figure: i64, s: &[u8]) -> bool
    requires { is_narrow figure ≡ true }
    ensures { result ≡ is_fields name.now (figure_text figure) s.now }
{
    let mut right = [b' '; FIGURE_WIDTH];
    spell_figure(figure, &mut right);
    is_fields(name, &right, s)
}

// It is that of the sheet's name and a date.
pub fn is_right_date(name: &[u8], s: &[u8]) -> bool
    ensures { result ≡ is_right_date name.now s.now }
{
    if s.len() < LINE_WIDTH {
        return false;
    }
    let date = &s[DATE_PLACE..FIELDS_END];
    if !is_date(date) {
        return false;
    }
    let mut right = [b' '; FIGURE_WIDTH];
    put_bytes(&mut right, 2, date);
    is_fields(name, &right, s)
}
