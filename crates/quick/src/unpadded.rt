// The form without needless blanks: the usual one where the mode is not exact.
ghost use Rattle.std.specs.Prelude.{◌≡◌, ◌-◌, ◌<◌, ◌≤◌, length};
ghost use Rattle.laws.specs.Lists.{run};
ghost use Rattle.record.specs.declared.Mode.TheVariants.{Loose};
ghost use Rattle.number.specs.Words.{blank};
ghost use Rattle.number.specs.Number.{value};
ghost use Rattle.quick.specs.Brisk.{Leads, Worthy, Briskly, EndsAt};
ghost use Rattle.quick.specs.Seen.{RealAt};

use crate::{Digits, RealTaken, Worth, figure};

// The first digits, eight at most: how many, and their number.
pub(crate) fn lead(u: &[u8]) -> Digits
    requires { 8 ≤ length u.now }
    ensures { Leads u.now result.start result.value }
{
    let mut value: usize = 0;
    for i in 0..8 {
        let b = figure(u[i]);
        if b > 9 {
            return Digits { start: i, value };
        }
        value = value * 10 + b;
    }
    Digits { start: 8, value }
}

// A token without its sign, with one byte or more after it: its length and thousandths, or length 0.
#[tactic(auto, using(crate::proofs::Leading::body_ways))]
fn body(u: &[u8]) -> Worth
    ensures { 0 < result.len → Worthy u.now (result.len - 4) result.value }
{
    if u.len() < 13 {
        return Worth { len: 0, value: 0 };
    }
    let Digits { start: n, value: v } = lead(u);
    if n < 1 {
        return Worth { len: 0, value: 0 };
    }
    if u[n] != 46 {
        return Worth { len: 0, value: 0 };
    }
    let x = figure(u[n + 1]);
    if x > 9 {
        return Worth { len: 0, value: 0 };
    }
    let y = figure(u[n + 2]);
    if y > 9 {
        return Worth { len: 0, value: 0 };
    }
    let z = figure(u[n + 3]);
    if z > 9 {
        return Worth { len: 0, value: 0 };
    }
    Worth {
        len: n + 4,
        value: v * 1000 + (x * 100 + y * 10 + z),
    }
}

// The blanks at the front: `blanks` of `number` again, to be compiled into its callers.
#[tactic(auto, using(laws::proofs::ListLaws::runs, number::proofs::WordWays::blank_tests))]
pub(crate) fn all_blanks(t: &[u8]) -> usize
    ensures { (result ≡ run blank t.now) × (result ≤ length t.now) }
{
    for (i, &b) in t.iter().enumerate() {
        if b != 32 {
            return i;
        }
    }
    t.len()
}

// One for a minus, else 0.
fn minus(b: u8) -> usize
    ensures { (result ≤ 1) × (0 < result → b ≡ 45) }
{
    usize::from(b == 45)
}

// Blanks, a token and one byte or more after it: the length before that byte and the real, lifted; or length 0.
#[tactic(auto, using(crate::proofs::Leading::brisk_ways))]
fn brisk(t: &[u8]) -> Worth
    ensures { 0 < result.len → Briskly t.now result.len result.value }
{
    let k = all_blanks(t);
    if k >= t.len() {
        return Worth { len: 0, value: 0 };
    }
    let a = k + minus(t[k]);
    let Worth { len: n, value: m } = body(&t[a..]);
    if n < 1 {
        return Worth { len: 0, value: 0 };
    }
    if a == k {
        return Worth {
            len: a + n,
            value: m + 10_000_000_000,
        };
    }
    if n > 11 {
        return Worth { len: 0, value: 0 };
    }
    Worth {
        len: a + n,
        value: 10_000_000_000 - m,
    }
}

// The bytes of the line end at a place, or 0.
#[tactic(auto, using(crate::proofs::Leading::line_end_ways))]
pub(crate) fn line_end(t: &[u8], e: usize) -> usize
    requires { e < length t.now }
    ensures { 0 < result → EndsAt t.now e result }
{
    let x = t[e];
    if x == 10 {
        return 1;
    }
    if x != 13 {
        return 0;
    }
    if e + 1 >= t.len() {
        return 0;
    }
    if t[e + 1] != 10 {
        return 0;
    }
    2
}

// A real's record of loose mode whose content ends with its token.
#[tactic(auto, using(crate::proofs::Leading::bare_ways))]
pub(crate) fn bare(s: &[u8], at: usize) -> RealTaken
    ensures { 0 < result.width → RealAt Loose s.now at result.width result.value }
{
    if at >= s.len() {
        return RealTaken { value: 0, width: 0 };
    }
    let t = &s[at..];
    let Worth { len: e, value } = brisk(t);
    if e < 1 {
        return RealTaken { value: 0, width: 0 };
    }
    if e > 255 {
        return RealTaken { value: 0, width: 0 };
    }
    let w = line_end(t, e);
    if w == 0 {
        return RealTaken { value: 0, width: 0 };
    }
    RealTaken {
        value,
        width: e + w,
    }
}
