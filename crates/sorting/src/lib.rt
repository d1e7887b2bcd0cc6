// Lines of 23 bytes put in the order of their bytes, where they stand (document 02, T-01): the listed borders of a SUP file, in the output itself.
// All of it is proved, and the public function has no `requires`. What it means is `sorted_lines` in `specs/Lines.antt`; all else here serves speed:
// passes over wide gaps only ever exchange two lines, and leave little to do for the last pass, which alone is shown to sort.
#![tactic(auto)]

ghost use Rattle.std.specs.Prelude.{◌≡◌, ◌+◌, ◌*◌, ◌≤◌, length};
ghost use Rattle.sorting.specs.Lines.{line_width, line_at, bytes_before, sorted_lines};
ghost use Rattle.sorting.specs.Exchanges.{Inside, exchanged, Exchanges, InOrder};

use spelling::put_bytes;

const LINE_WIDTH: usize = 23;

fn line_of(s: &[u8], i: usize) -> &[u8]
    requires { Inside s.now i }
    ensures { result.now ≡ line_at s.now i }
{
    let at = LINE_WIDTH * i;
    &s[at..at + LINE_WIDTH]
}

// Line i comes before line j. By slices' `cmp`, since lines near each other begin alike.
fn is_before(s: &[u8], i: usize, j: usize) -> bool
    requires { Inside s.now i × Inside s.now j }
    ensures { result ≡ bytes_before (line_at s.now i) (line_at s.now j) }
{
    line_of(s, i).cmp(line_of(s, j)).is_lt()
}

// A copy, since the line is stored over.
fn line_at(s: &[u8], i: usize) -> [u8; 23]
    requires { Inside s.now i }
    ensures { result ≡ line_at s.now i }
{
    let at = LINE_WIDTH * i;
    let mut line = [0u8; 23];
    for k in 0..LINE_WIDTH {
        line[k] = s[at + k];
    }
    line
}

fn exchange(s: &mut [u8], i: usize, j: usize)
    requires { Inside s.old i × Inside s.old j }
    ensures { s.new ≡ exchanged s.old i j }
{
    let a = line_at(s, i);
    let b = line_at(s, j);
    put_bytes(s, LINE_WIDTH * i, &b);
    put_bytes(s, LINE_WIDTH * j, &a);
}

// Line i goes forward, a gap at a time, past those that it comes before.
fn sink(s: &mut [u8], gap: usize, i: usize)
    requires { (1 ≤ gap) × Inside s.old i }
    ensures exchanges { Exchanges s.old s.new }
    ensures in_order { gap ≡ 1 → InOrder i s.old → InOrder (i + 1) s.new }
{
    let mut j = i;
    while j >= gap {
        let k = j - gap;
        if !is_before(s, j, k) {
            return;
        }
        exchange(s, k, j);
        j = k;
    }
}

// With a gap of 1 the n lines are in order behind it.
fn pass(s: &mut [u8], n: usize, gap: usize)
    requires { (1 ≤ gap) × (line_width * n ≤ length s.old) }
    ensures exchanges { Exchanges s.old s.new }
    ensures in_order { gap ≡ 1 → InOrder n s.new }
{
    for i in gap..n {
        sink(s, gap, i);
    }
}

// The lines in order; what is left behind the last whole line stays. Each gap is some four ninths of the one before.
pub fn sort_lines(s: &mut [u8])
    ensures { s.new ≡ sorted_lines s.old }
{
    let n = s.len() / LINE_WIDTH;
    let mut gap = n;
    while gap > 1 {
        pass(s, n, gap);
        gap = gap / 9 * 4 + 1;
    }
    pass(s, n, 1);
}
