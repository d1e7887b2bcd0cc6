// An integer: the form of exact mode, which is 4 characters, right aligned, no needless zero; and that of the other modes.
ghost use Rattle.std.specs.Prelude.{◌≡◌, ◌+◌, ◌*◌, ◌%◌, ◌<◌, ◌≤◌, false, length};
ghost use Rattle.laws.specs.Lists.{run};
ghost use Rattle.record.specs.declared.Mode.TheVariants.{Loose};
ghost use Rattle.record.specs.Record.{is_exact, plain};
ghost use Rattle.number.specs.Number.{digit};
ghost use Rattle.quick.specs.Brisk.{Loosely};
ghost use Rattle.quick.specs.Seen.{IntegerAt};
ghost use Rattle.quick.specs.Four.{lead, is_two, is_long, FourEnds};

use crate::unpadded::{all_blanks, lead, line_end};
use crate::{Digits, IntegerTaken, Worth};
use record::{Mode, is_exact, is_former};

#[tactic(auto, using(crate::proofs::Fours::is_digit_ways))]
fn is_digit(b: u8) -> bool
    ensures { result ≡ digit b }
{
    (b >= 48) & (b <= 57)
}

#[tactic(auto, using(crate::proofs::Fours::is_lead_ways))]
fn is_lead(b: u8) -> bool
    ensures { result ≡ lead b }
{
    (b >= 49) & (b <= 57)
}

// Before the last digit, behind two blanks: what most integers have there.
#[tactic(auto, using(crate::proofs::Fours::is_two_ways))]
fn is_two(c: u8) -> bool
    ensures { result ≡ is_two c }
{
    (c == 32) | is_lead(c)
}

// Before the last digit, where three stand or four. `&` and `|` leave one branch of the tests.
#[tactic(auto, using(crate::proofs::Fours::is_long_ways))]
fn is_long(a: u8, b: u8, c: u8) -> bool
    ensures { result ≡ is_long a b c }
{
    is_digit(c) & (((a == 32) & is_lead(b)) | (is_lead(a) & is_digit(b)))
}

// What a digit is worth, and a blank nothing.
fn worth(b: u8) -> usize
    ensures { result ≡ b % 16 }
{
    usize::from(b % 16)
}

fn two_value(c: u8, d: u8) -> usize
    ensures { result ≡ c % 16 * 10 + d % 16 }
{
    worth(c) * 10 + worth(d)
}

fn long_value(a: u8, b: u8, c: u8, d: u8) -> usize
    ensures { result ≡ a % 16 * 1000 + b % 16 * 100 + (c % 16 * 10 + d % 16) }
{
    worth(a) * 1000 + worth(b) * 100 + two_value(c, d)
}

// The bytes of a record whose line end stands behind 4 characters: 6, or 5 where the mode is not exact; or 0.
#[tactic(auto, using(crate::proofs::Fours::four_ending_ways))]
fn four_ending(s: &[u8], at: usize, mode: Mode) -> usize
    ensures { 0 < result → FourEnds mode s.now at result }
{
    let n = s.len();
    if n < 6 {
        return 0;
    }
    if at > n - 6 {
        return 0;
    }
    let b = s[at + 4];
    if b == 13 {
        if s[at + 5] == 10 {
            return 6;
        }
        return 0;
    }
    if is_exact(mode) {
        return 0;
    }
    if b == 10 {
        return 5;
    }
    0
}

// An integer's record at a place, in its usual form.
#[tactic(auto, using(crate::proofs::Fours::integer_at_ways))]
pub fn integer_at(s: &[u8], at: usize, mode: Mode) -> IntegerTaken
    ensures { 0 < result.width → IntegerAt mode s.now at result.width result.value }
{
    let width = four_ending(s, at, mode);
    if width == 0 {
        return IntegerTaken { value: 0, width: 0 };
    }
    let d = s[at + 3];
    if !is_digit(d) {
        return IntegerTaken { value: 0, width: 0 };
    }
    let a = s[at];
    let b = s[at + 1];
    let c = s[at + 2];
    if a == 32 {
        if b == 32 {
            if is_two(c) {
                return IntegerTaken {
                    value: two_value(c, d),
                    width,
                };
            }
            return IntegerTaken { value: 0, width: 0 };
        }
    }
    if is_long(a, b, c) {
        return IntegerTaken {
            value: long_value(a, b, c, d),
            width,
        };
    }
    IntegerTaken { value: 0, width: 0 }
}

// Blanks, one to four digits, blanks and one byte or more after them: the length before that byte and the integer; or length 0.
#[tactic(auto, using(crate::proofs::LooseIntegers::loosely))]
fn loose_body(t: &[u8]) -> Worth
    ensures { 0 < result.len → Loosely Loose t.now result.len result.value }
{
    let m = t.len();
    if m < 8 {
        return Worth { len: 0, value: 0 };
    }
    let k = all_blanks(t);
    if k > m - 8 {
        return Worth { len: 0, value: 0 };
    }
    let Digits { start: n, value } = lead(&t[k..]);
    if n < 1 {
        return Worth { len: 0, value: 0 };
    }
    if n > 4 {
        return Worth { len: 0, value: 0 };
    }
    let j = k + n;
    let e = j + all_blanks(&t[j..]);
    if e >= m {
        return Worth { len: 0, value: 0 };
    }
    Worth { len: e, value }
}

// The bytes at the front that a note may hold: `plain_run` of `record` again, to be compiled into its callers.
#[tactic(auto, using(laws::proofs::ListLaws::runs, record::proofs::RecordCases::byte_tests))]
fn note_run(t: &[u8]) -> usize
    ensures { (result ≡ run plain t.now) × (result ≤ length t.now) }
{
    for (i, &b) in t.iter().enumerate() {
        if b < 32 || b > 126 {
            return i;
        }
    }
    t.len()
}

// The same with what the mode lets stand behind it: in the former reading, where a blank comes last, a note.
#[tactic(auto, using(crate::proofs::LooseIntegers::noted_body_ways))]
fn noted_body(t: &[u8], mode: Mode) -> Worth
    ensures { 0 < result.len → Loosely mode t.now result.len result.value }
{
    let Worth { len: e, value } = loose_body(t);
    if !is_former(mode) {
        return Worth { len: e, value };
    }
    if e < 1 {
        return Worth { len: 0, value: 0 };
    }
    if t[e - 1] != 32 {
        return Worth { len: e, value };
    }
    let f = e + note_run(&t[e..]);
    if f >= t.len() {
        return Worth { len: 0, value: 0 };
    }
    Worth { len: f, value }
}

// An integer's record of a mode that is not exact, 0 bytes near the file's end.
#[tactic(auto, using(crate::proofs::LooseIntegers::loose_integer_ways))]
pub fn loose_integer(s: &[u8], at: usize, mode: Mode) -> IntegerTaken
    ensures { 0 < result.width → is_exact mode ≡ false → IntegerAt mode s.now at result.width result.value }
{
    if at >= s.len() {
        return IntegerTaken { value: 0, width: 0 };
    }
    let t = &s[at..];
    let Worth { len: e, value } = noted_body(t, mode);
    if e < 1 {
        return IntegerTaken { value: 0, width: 0 };
    }
    if e > 255 {
        return IntegerTaken { value: 0, width: 0 };
    }
    let w = line_end(t, e);
    if w == 0 {
        return IntegerTaken { value: 0, width: 0 };
    }
    IntegerTaken {
        value,
        width: e + w,
    }
}
