// What a record's content holds (document 01, "Records"; 02, T-09): a word, an integer or a real, in each mode.
// All of it is proved, and no public function has a `requires`: each takes any bytes. The record checks (length, bytes) are made before.
#![tactic(auto)]

ghost use Rattle.std.specs.Prelude.{◌≡◌, true, ◌+◌, ◌^◌, ◌<◌, ◌≤◌, length, drop};
ghost use Rattle.laws.specs.Lists.{run, kept, all};
ghost use Rattle.number.specs.Words.{blank, unled, word_of};
ghost use Rattle.number.specs.Number.{digit, value, parted, ended, lean, integer_at, integer_of, sign_of, signs, signed, thousandths, is_token, is_neat, real_at, real_signed, real_of};

use record::{Mode, is_exact, is_former};

// The place and the length of a word in a content.
#[derive(Clone, Copy)]
pub struct Word {
    pub start: usize,
    pub len: usize,
}

const BLANK: u8 = 32;

// How many blanks stand at the front.
#[tactic(auto, using(laws::proofs::ListLaws::runs, crate::proofs::WordWays::blank_tests))]
fn blanks(s: &[u8]) -> usize
    ensures { result ≡ run blank s.now }
{
    for (i, &b) in s.iter().enumerate() {
        if b != BLANK {
            return i;
        }
    }
    s.len()
}

// How many bytes are left when the blanks at the end are dropped.
#[tactic(auto, using(crate::proofs::WordWays::padded_ways))]
fn unpadded(s: &[u8]) -> usize
    ensures { result ≡ kept blank s.now }
{
    let mut left = s;
    while let [front @ .., BLANK] = left {
        left = front;
    }
    left.len()
}

// A content as a word: keyword, first word, letters, name. None: a blank at an end in exact mode.
#[tactic(auto, using(laws::proofs::ListLaws::runs, crate::proofs::WordWays::word_ways))]
pub fn word_of(c: &[u8], mode: Mode) -> Option<Word>
    ensures { result ≡ word_of mode c.now }
{
    let start = blanks(c);
    let len = unpadded(&c[start..]);
    if is_exact(mode) && len != c.len() {
        return None;
    }
    Some(Word { start, len })
}

// How many digits stand at the front. The loop is `plain_run`'s with another test: the test handed in as a closure is no plainer.
#[tactic(auto, using(laws::proofs::ListLaws::runs, crate::proofs::IntegerWays::digit_tests))]
fn digits(s: &[u8]) -> usize
    ensures { result ≡ run digit s.now }
{
    for (i, &b) in s.iter().enumerate() {
        if b < b'0' || b > b'9' {
            return i;
        }
    }
    s.len()
}

// The number that a few digits spell.
#[tactic(auto, using(crate::proofs::IntegerWays::value_ways))]
fn value_of(s: &[u8]) -> usize
    requires { (length s.now ≤ 8) × (all digit s.now ≡ true) }
    ensures { (result ≡ value 0 s.now) × (result < 10 ^ length s.now) }
{
    let mut v = 0;
    for &b in s {
        v = v * 10 + usize::from(b - b'0');
    }
    v
}

// Blanks alone, or nothing.
#[tactic(auto, using(laws::proofs::ListLaws::wholes))]
fn are_blanks(s: &[u8]) -> bool
    ensures { result ≡ all blank s.now }
{
    blanks(s) == s.len()
}

// The end, or a blank and any tail.
#[tactic(auto, unfolding(crate::specs::Number::parted))]
fn is_parted(s: &[u8]) -> bool
    ensures { result ≡ parted s.now }
{
    matches!(s, [] | [BLANK, ..])
}

// What may stand behind a number: blanks; in the former reading a blank and any tail.
#[tactic(auto, unfolding(crate::specs::Number::ended))]
fn is_ended(s: &[u8], mode: Mode) -> bool
    ensures { result ≡ ended mode s.now }
{
    if is_former(mode) {
        is_parted(s)
    } else {
        are_blanks(s)
    }
}

// Of `n` digits at the front, no zero comes first except where it is the only one.
#[tactic(auto, unfolding(crate::specs::Number::lean))]
fn is_lean(t: &[u8], n: usize) -> bool
    ensures { result ≡ lean t.now n }
{
    n == 1 || !matches!(t, [b'0', ..])
}

// An integer, in what follows the blanks of a content of `size` bytes.
#[tactic(auto, using(laws::proofs::ListLaws::runs, crate::proofs::IntegerWays::integer_ways))]
fn integer_at(t: &[u8], size: usize, mode: Mode) -> Option<usize>
    ensures { result ≡ integer_at mode size t.now }
{
    let n = digits(t);
    if n < 1 || n > 4 || !is_ended(&t[n..], mode) {
        return None;
    }
    if is_exact(mode) && (size != 4 || t.len() != n || !is_lean(t, n)) {
        return None;
    }
    Some(value_of(&t[..n]))
}

// A content without the blanks at its front.
#[tactic(auto, using(laws::proofs::ListLaws::runs), unfolding(crate::specs::Words::unled))]
fn unled(c: &[u8]) -> &[u8]
    ensures { result.now ≡ unled c.now }
{
    &c[blanks(c)..]
}

// A content as an integer.
#[tactic(auto, unfolding(crate::specs::Number::integer_of))]
pub fn integer(c: &[u8], mode: Mode) -> Option<usize>
    ensures { result ≡ integer_of mode c.now }
{
    integer_at(unled(c), c.len(), mode)
}

// The sign at the front: `+`, `-`, or 0 for none.
#[tactic(auto, unfolding(crate::specs::Number::sign_of))]
fn sign_of(t: &[u8]) -> u8
    ensures { result ≡ sign_of t.now }
{
    match t {
        [b @ (b'+' | b'-'), ..] => *b,
        _ => 0,
    }
}

// How many characters it takes.
#[tactic(auto, unfolding(crate::specs::Number::signs))]
fn sign_len(sign: u8) -> usize
    ensures { result ≡ signs sign }
{
    usize::from(sign != 0)
}

// A number with its sign: the sign is the token's, not the whole part's.
#[tactic(auto, using(crate::proofs::RealWays::sign_ways))]
fn with_sign(sign: u8, m: usize) -> i64
    requires { m < 100000000000 }
    ensures { result ≡ signed sign m }
{
    if sign == b'-' { -(m as i64) } else { m as i64 }
}

// The value in thousandths of `n` digits at the front, a point and three digits.
#[tactic(auto, using(crate::proofs::RealWays::thousand_ways))]
fn thousandths_of(u: &[u8], n: usize) -> usize
    requires { (n ≡ run digit u.now) × (n ≤ 8) × (run digit (drop (n + 1) u.now) ≡ 3) }
    ensures { (result ≡ thousandths u.now n) × (result < 100000000000) }
{
    value_of(&u[..n]) * 1000 + value_of(&u[n + 1..n + 4])
}

// A token: what follows the sign is `u`, with `n` digits at its front.
#[tactic(auto, using(crate::proofs::RealWays::token_ways))]
fn is_token(u: &[u8], n: usize, sign: u8) -> bool
    ensures { result ≡ is_token sign u.now n }
{
    if n < 1 || n > 8 || u.len() <= n || u[n] != b'.' {
        return false;
    }
    digits(&u[n + 1..]) == 3 && sign_len(sign) + n + 4 <= 12
}

// What exact mode asks besides.
#[tactic(auto, unfolding(crate::specs::Number::is_neat))]
fn is_neat(u: &[u8], n: usize, size: usize, sign: u8, m: usize) -> bool
    requires { (m ≡ thousandths u.now n) × (n ≤ 8) }
    ensures { result ≡ is_neat size sign u.now n }
{
    size == 12 && u.len() == n + 4 && sign != b'+' && !(sign == b'-' && m == 0) && is_lean(u, n)
}

// A real, in what follows the blanks and the sign of a content of `size` bytes.
#[tactic(auto, using(crate::proofs::RealWays::real_ways))]
fn real_at(u: &[u8], size: usize, sign: u8, mode: Mode) -> Option<i64>
    ensures { result ≡ real_at mode size sign u.now }
{
    let n = digits(u);
    if !is_token(u, n, sign) || !is_ended(&u[n + 4..], mode) {
        return None;
    }
    let m = thousandths_of(u, n);
    if is_exact(mode) && !is_neat(u, n, size, sign, m) {
        return None;
    }
    Some(with_sign(sign, m))
}

#[tactic(auto, using(crate::proofs::RealWays::signed_ways))]
fn real_signed(t: &[u8], size: usize, mode: Mode) -> Option<i64>
    ensures { result ≡ real_signed mode size t.now }
{
    let sign = sign_of(t);
    real_at(&t[sign_len(sign)..], size, sign, mode)
}

// A content as a real, in thousandths.
#[tactic(auto, unfolding(crate::specs::Number::real_of))]
pub fn real(c: &[u8], mode: Mode) -> Option<i64>
    ensures { result ≡ real_of mode c.now }
{
    real_signed(unled(c), c.len(), mode)
}
