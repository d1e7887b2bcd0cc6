// The quick way for the usual form of a real's record, which is most of a file (document 01, "Records"): it answers for what it has seen, or
// with 0 bytes for "ask the slow way", and never refuses. All of it is proved, and no public function has a `requires`. It is the hottest code:
// 0 stands for none, and not an Option, so that an answer is one number and one test.
#![tactic(auto)]

mod aligned;
pub mod by_word;
pub mod integers;
mod neighbours;
mod unpadded;

ghost use Rattle.std.specs.Prelude.{◌≡◌, ◌+◌, ◌-◌, ◌/◌, ◌<◌, ◌≤◌, slice_index};
ghost use Rattle.number.specs.Number.{value};
ghost use Rattle.quick.specs.Seen.{RealAt, SomeReal, Padded, Usual, Ender, Ends, Vertices};

use crate::aligned::{is_sound, neat};
use crate::neighbours::usual_records;
use crate::unpadded::bare;
use record::{Mode, is_exact};

// Vertices that were read: how many, and the place behind them.
#[derive(Clone, Copy)]
pub struct Run {
    pub count: usize,
    pub next: usize,
}

// Reals in their usual form: how many, and the bytes of the record that each has.
#[derive(Clone, Copy)]
pub struct UsualRun {
    pub count: usize,
    pub width: usize,
}

// A real that was read: lifted, and its record's bytes, 0 where none was read. The place of the next record hangs on the
// bytes alone, so that it is known before the real is.
#[derive(Clone, Copy)]
pub struct RealTaken {
    pub value: usize,
    pub width: usize,
}

// An integer that was read, and its record's bytes, 0 where none was read.
#[derive(Clone, Copy)]
pub struct IntegerTaken {
    pub value: usize,
    pub width: usize,
}

// What a byte is as a digit: 9 at most for digits alone.
fn figure(b: u8) -> usize
    ensures { result ≤ 9 → (48 ≤ b) × (b ≤ 57) × (result ≡ b - 48) }
{
    usize::from(std::num::wrapping_sub_u8(b, 48))
}

#[derive(Clone, Copy)]
struct Digits {
    start: usize,
    value: usize,
}

// The bytes of a record whose line end stands behind 12 characters: 14, or 13 where the mode is not exact; or 0.
#[tactic(auto, using(crate::proofs::Places::ending_ways))]
fn ending(s: &[u8], at: usize, mode: Mode) -> usize
    ensures ends { 0 < result → Ends mode s.now at result }
    ensures ender { 0 < result → Ender mode result (slice_index s.now (at + 12)) }
{
    let n = s.len();
    if n < 14 {
        return 0;
    }
    if at > n - 14 {
        return 0;
    }
    let b = s[at + 12];
    if b == 13 {
        if s[at + 13] == 10 {
            return 14;
        }
        return 0;
    }
    if is_exact(mode) {
        return 0;
    }
    if b == 10 {
        return 13;
    }
    0
}

// A real's record of 12 characters.
#[tactic(auto, using(crate::proofs::Places::padded_ways))]
pub fn padded(s: &[u8], at: usize, mode: Mode) -> RealTaken
    ensures { 0 < result.width → Padded mode s.now at result.width result.value }
{
    let w = ending(s, at, mode);
    if w == 0 {
        return RealTaken { value: 0, width: 0 };
    }
    let value = neat(&s[at..at + 12]);
    if value == 0 {
        return RealTaken { value: 0, width: 0 };
    }
    RealTaken { value, width: w }
}

// The record's bytes alone.
#[tactic(auto, using(crate::proofs::Places::padded_width_ways))]
fn padded_width(s: &[u8], at: usize, mode: Mode) -> usize
    ensures { 0 < result → SomeReal mode s.now at result }
{
    let w = ending(s, at, mode);
    if w == 0 {
        return 0;
    }
    if is_sound(&s[at..at + 12]) { w } else { 0 }
}

#[derive(Clone, Copy)]
struct Worth {
    len: usize,
    value: usize,
}

// A real's record at a place, in its usual form.
#[tactic(auto, using(crate::proofs::Places::real_at_ways))]
pub fn real_at(s: &[u8], at: usize, mode: Mode) -> RealTaken
    ensures { 0 < result.width → RealAt mode s.now at result.width result.value }
{
    let r = padded(s, at, mode);
    if r.width > 0 {
        return r;
    }
    if is_exact(mode) {
        return RealTaken { value: 0, width: 0 };
    }
    bare(s, at)
}

// The record's bytes alone.
#[tactic(auto, using(crate::proofs::Places::width_at_ways))]
fn width_at(s: &[u8], at: usize, mode: Mode) -> usize
    ensures { 0 < result → SomeReal mode s.now at result }
{
    let w = padded_width(s, at, mode);
    if w > 0 {
        return w;
    }
    if is_exact(mode) {
        return 0;
    }
    bare(s, at).width
}

// At most so many reals in their usual form from a place on, one behind the other; none where no LF stands before.
#[tactic(auto, using(crate::proofs::UsualLaws::usual_run_ways))]
pub fn usual_run(s: &[u8], at: usize, mode: Mode, most: usize) -> UsualRun
    ensures { (result.count ≤ most) × Usual mode s.now at result.width result.count }
{
    let width = ending(s, at, mode);
    if width == 0 {
        return UsualRun { count: 0, width: 0 };
    }
    if at == 0 {
        return UsualRun { count: 0, width: 0 };
    }
    if s[at - 1] != 10 {
        return UsualRun { count: 0, width: 0 };
    }
    let count = usual_records(s, at, width, s[at + 12], most);
    UsualRun { count, width }
}

// Twice a number, or the number itself where twice it would not fit.
fn doubled(n: usize) -> usize
    ensures { result / 2 ≤ n }
{
    if n > 9_000_000_000_000_000_000 {
        return n;
    }
    2 * n
}

// At most so many vertices from a place on, as many as stand there in the usual form: a run of reals of one width first,
// then one by one.
pub fn vertices(s: &[u8], at: usize, mode: Mode, most: usize) -> Run
    ensures { (result.count ≤ most) × Vertices mode s.now at result.count result.next }
{
    let begun = usual_run(s, at, mode, doubled(most));
    let pairs = begun.count / 2;
    let mut next = at + 2 * pairs * begun.width;
    for count in pairs..most {
        let x = width_at(s, next, mode);
        if x == 0 {
            return Run { count, next };
        }
        let mid = next + x;
        let y = width_at(s, mid, mode);
        if y == 0 {
            return Run { count, next };
        }
        next = mid + y;
    }
    Run { count: most, next }
}
