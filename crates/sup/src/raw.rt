// The lines of listed borders while they are put in order (document 02, T-01): in place of its figure each has ten bytes whose order is that of the
// figures, so that the order of the list is the order of the lines' bytes. No other module knows of these bytes.
ghost use Rattle.std.specs.Prelude.{◌≡◌, true, ◌+◌, ◌*◌, ◌≤◌, ◌<◌, length};
ghost use Rattle.laws.specs.Lists.{pasted};
ghost use Rattle.spelling.specs.Figures.{is_narrow};
ghost use Rattle.sorting.specs.Lines.{line_at};
ghost use Rattle.sorting.specs.Exchanges.{Inside};
ghost use Rattle.sup.specs.Lines.{line_width};
ghost use Rattle.sup.specs.Raw.{raw_number, raw_field, number_from, figured, figured_lines};

use spelling::spell_figure;

const LINE_WIDTH: usize = 23;

const NAME_WIDTH: usize = 11;

// Where the bytes begin that may be other than 0.
const NUMBER_PLACE: usize = 16;

// One more than the least figure is below 0.
const LIFT: i64 = 1_000_000_000;

fn raised(figure: i64) -> usize
    requires { is_narrow figure ≡ true }
    ensures { result ≡ raw_number figure }
{
    (figure + LIFT) as usize
}

// The bytes of a figure, the greatest first.
pub(crate) fn raw_field(figure: i64) -> [u8; 10]
    requires { is_narrow figure ≡ true }
    ensures { result ≡ raw_field figure }
{
    let n = raised(figure);
    let fourth = n / 256;
    let third = fourth / 256;
    let second = third / 256;
    let first = second / 256;
    [
        0,
        0,
        0,
        0,
        0,
        first as u8,
        (second % 256) as u8,
        (third % 256) as u8,
        (fourth % 256) as u8,
        (n % 256) as u8,
    ]
}

fn number_from(s: &[u8], at: usize) -> usize
    requires { at + 5 ≤ length s.now }
    ensures { (result ≡ number_from s.now at) × (result < 1099511627776) }
{
    let first = s[at] as usize;
    let second = s[at + 1] as usize;
    let third = s[at + 2] as usize;
    let fourth = s[at + 3] as usize;
    let fifth = s[at + 4] as usize;
    (((first * 256 + second) * 256 + third) * 256 + fourth) * 256 + fifth
}

// The figure of line i in place of its bytes.
fn put_figured(s: &mut [u8], i: usize)
    requires { Inside s.old i }
    ensures { s.new ≡ pasted s.old (line_width * i) (figured (line_at s.old i)) }
{
    let at = LINE_WIDTH * i;
    let figure = number_from(s, at + NUMBER_PLACE) as i64 - LIFT;
    let next = at + NAME_WIDTH;
    spell_figure(figure, &mut s[next..]);
}

// The same of each line.
pub(crate) fn put_figures(s: &mut [u8])
    ensures { s.new ≡ figured_lines s.old }
{
    for i in 0..s.len() / LINE_WIDTH {
        put_figured(s, i);
    }
}
