// The form of exact mode: 12 characters, right aligned.
ghost use Rattle.std.specs.Prelude.{◌≡◌, ◌+◌, ◌-◌, ◌*◌, ◌<◌, ◌≤◌, true, length, take, drop, slice_index};
ghost use Rattle.laws.specs.Lists.{run, all};
ghost use Rattle.number.specs.Words.{blank};
ghost use Rattle.number.specs.Number.{digit, value, lean};
ghost use Rattle.quick.specs.Neat.{to_point, Front, Figures, Figured, Neat, Sound};

use crate::{Digits, figure};

// The blanks at the front. The point at place 8 ends them, so no test of the place is made, as an iterator would make one.
#[tactic(auto, using(crate::proofs::Twelve::blanks_ways))]
fn blanks(c: &[u8]) -> usize
    requires { (8 < length c.now) × (slice_index c.now 8 ≡ 46) }
    ensures { (result ≡ run blank c.now) × (result ≤ 8) }
{
    let mut i = 0;
    loop {
        if c[i] != 32 {
            return i;
        }
        i += 1;
    }
}

// The digits that end before place 8, from the right: where they start, and their number.
fn front(c: &[u8]) -> Digits
    requires { 8 ≤ length c.now }
    ensures { Front c.now result.start result.value }
{
    let mut value: usize = 0;
    let mut power: usize = 1;
    for i in (0..8).rev() {
        let b = figure(c[i]);
        if b > 9 {
            return Digits {
                start: i + 1,
                value,
            };
        }
        value += b * power;
        power *= 10;
    }
    Digits { start: 0, value }
}

// Three digits after the point, joined to the number before it: one more than the thousandths, or 0.
fn three(c: &[u8], v: usize) -> usize
    requires { (length c.now ≡ 12) × (v < 100000000) }
    ensures { 0 < result → (run digit (drop 9 c.now) ≡ 3) × (result ≡ v * 1000 + value 0 (take 3 (drop 9 c.now)) + 1) }
{
    let x = figure(c[9]);
    if x > 9 {
        return 0;
    }
    let y = figure(c[10]);
    if y > 9 {
        return 0;
    }
    let z = figure(c[11]);
    if z > 9 {
        return 0;
    }
    v * 1000 + (x * 100 + y * 10 + z) + 1
}

#[tactic(auto, unfolding(number::specs::Number::lean), using(crate::proofs::Twelve::head_is))]
fn is_lean(c: &[u8], d: usize) -> bool
    requires { (length c.now ≡ 12) × (d ≤ 7) }
    ensures { result ≡ lean (drop d c.now) (8 - d) }
{
    d == 7 || c[d] != 48
}

// The lifted thousandths, n less one of them, with the blanks and the sign before place d, or 0.
#[tactic(auto, using(crate::proofs::Tokens::with_sign_ways))]
fn with_sign(c: &[u8], d: usize, n: usize) -> usize
    requires { (length c.now ≡ 12) × (slice_index c.now 8 ≡ 46) × (0 < n) × Figures c.now d (n - 1) }
    ensures { 0 < result → Neat c.now result }
{
    let k = blanks(c);
    if k == d {
        return n + 9_999_999_999;
    }
    if k + 1 != d {
        return 0;
    }
    if c[k] != 45 {
        return 0;
    }
    if n < 2 {
        return 0;
    }
    10_000_000_001 - n
}

// The lifted thousandths of a content that is a real as exact mode has it, or 0 for any other.
pub(crate) fn neat(c: &[u8]) -> usize
    ensures { 0 < result → Neat c.now result }
{
    if c.len() != 12 {
        return 0;
    }
    if c[8] != 46 {
        return 0;
    }
    let Digits { start: d, value } = front(c);
    if d > 7 {
        return 0;
    }
    if !is_lean(c, d) {
        return 0;
    }
    let n = three(c, value);
    if n == 0 {
        return 0;
    }
    with_sign(c, d, n)
}

// Where the digits that end before place 8 start.
fn start_of(c: &[u8]) -> usize
    requires { 8 ≤ length c.now }
    ensures { (result ≤ 8) × (all digit (to_point c.now result) ≡ true) }
{
    for i in (0..8).rev() {
        if figure(c[i]) > 9 {
            return i + 1;
        }
    }
    0
}

// Three digits stand after the point.
fn are_three(c: &[u8]) -> bool
    requires { length c.now ≡ 12 }
    ensures { result ≡ true → run digit (drop 9 c.now) ≡ 3 }
{
    if figure(c[9]) > 9 {
        return false;
    }
    if figure(c[10]) > 9 {
        return false;
    }
    figure(c[11]) <= 9
}

// Blanks, and a minus at most, stand before place d, which is no zero where there is one.
#[tactic(auto, using(crate::proofs::Tokens::is_led_ways, crate::proofs::Twelve::unlike))]
fn is_led(c: &[u8], d: usize) -> bool
    requires { (length c.now ≡ 12) × (slice_index c.now 8 ≡ 46) × Figured c.now d }
    ensures { result ≡ true → Sound c.now }
{
    let k = blanks(c);
    if k == d {
        return true;
    }
    if k + 1 != d {
        return false;
    }
    if c[k] != 45 {
        return false;
    }
    c[d] != 48
}

// A content is a real as exact mode has it: as `neat`, without the value.
pub(crate) fn is_sound(c: &[u8]) -> bool
    ensures { result ≡ true → Sound c.now }
{
    if c.len() != 12 {
        return false;
    }
    if c[8] != 46 {
        return false;
    }
    let d = start_of(c);
    if d > 7 {
        return false;
    }
    if !is_lean(c, d) {
        return false;
    }
    if !are_three(c) {
        return false;
    }
    is_led(c, d)
}
