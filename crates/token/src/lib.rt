// What a record's content says where the machine stands (document 01, "Sections"): one number, or a refusal.
// All of it is proved, and no public function has a `requires`.
#![tactic(auto)]

ghost use Rattle.std.specs.Prelude.{◌≡◌, ◌<◌, cond};
ghost use Rattle.laws.specs.Lists.{place};
ghost use Rattle.token.specs.Lex.{keywords, lift, may_lie_outside, unmarked, is_marked, key_of, lex_of};

use number::{integer, real, word_of};
use record::refusal::Refusal;
use record::{Mode, is_same};

// What a content is to be read as.
#[derive(Clone, Copy, Debug, PartialEq, Eq)]
pub enum Want {
    Key,
    Text,
    Int,
    Real,
}

// How many kinds there are.
pub const KINDS: usize = 7;

const LIFT_BY: usize = 10_000_000_000;

const LEAST: i64 = -10_000_000_000;

// The keywords one behind the other, and where each begins.
pub const WORDS: [u8; 57] = *b"BORDOTESTOSIMBOLOFIDUCIALELINEARIFERIMENTO_RASTERLIBRETTO";

pub const WORD_STARTS: [usize; 8] = [0, 5, 10, 17, 26, 31, 49, 57];

// The kind of a keyword, or 0. The tests stand in a row: a table would be built anew at each use, and the proof of a `match`
// on bytes falls into a case for each of them.
#[tactic(auto, using(crate::proofs::TokenWays::kind_ways))]
fn kind_of(w: &[u8]) -> usize
    ensures { result ≡ place 1 keywords w.now }
{
    if is_same(w, b"BORDO") {
        return 1;
    }
    if is_same(w, b"TESTO") {
        return 2;
    }
    if is_same(w, b"SIMBOLO") {
        return 3;
    }
    if is_same(w, b"FIDUCIALE") {
        return 4;
    }
    if is_same(w, b"LINEA") {
        return 5;
    }
    if is_same(w, b"RIFERIMENTO_RASTER") {
        return 6;
    }
    if is_same(w, b"LIBRETTO") {
        return 7;
    }
    0
}

// TESTO, SIMBOLO, FIDUCIALE and LINEA may lie outside.
#[tactic(auto, unfolding(crate::specs::Lex::may_lie_outside))]
pub fn may_lie_outside(kind: usize) -> bool
    ensures { result ≡ may_lie_outside kind }
{
    matches!(kind, 2..=5)
}

// What stands before the last byte, where there is one.
#[tactic(auto, using(crate::proofs::TokenWays::marked_ways))]
fn marked_kind(w: &[u8]) -> usize
    ensures { result ≡ cond (is_marked w.now) (place 1 keywords (unmarked w.now)) 0 }
{
    let Some((&b'\\', front)) = w.split_last() else {
        return 0;
    };
    let kind = kind_of(front);
    if may_lie_outside(kind) { kind } else { 0 }
}

// A word where a keyword is due.
#[tactic(auto, using(crate::proofs::TokenWays::key_ways))]
fn key_of(w: &[u8]) -> Result<usize, Refusal>
    ensures { result ≡ key_of w.now }
{
    if is_same(w, b"EOF") {
        return Ok(0);
    }
    let kind = kind_of(w);
    if kind > 0 {
        return Ok(2 * kind);
    }
    let outside = marked_kind(w);
    if outside > 0 {
        return Ok(2 * outside + 1);
    }
    Err(Refusal::Keyword)
}

// A real as a token.
#[tactic(auto, using(crate::proofs::TokenWays::lift_ways))]
pub fn lifted(z: i64) -> usize
    ensures { result ≡ lift z }
{
    if z >= 0 {
        return z as usize + LIFT_BY;
    }
    if z < LEAST {
        return 0;
    }
    (z - LEAST) as usize
}

// What a content says, as one number: a keyword twice its kind, one more where it lies outside, 0 for EOF; letters their
// count; an integer itself; a real its thousandths lifted by 10,000,000,000.
#[tactic(auto, unfolding(crate::specs::Lex::lex_of), using(crate::proofs::TokenWays::word_in))]
pub fn lex(c: &[u8], mode: Mode, want: Want) -> Result<usize, Refusal>
    ensures { result ≡ lex_of mode want c.now }
{
    match want {
        Want::Key => {
            let Some(word) = word_of(c, mode) else {
                return Err(Refusal::Keyword);
            };
            key_of(&c[word.start..word.start + word.len])
        }
        Want::Text => {
            let Some(word) = word_of(c, mode) else {
                return Err(Refusal::Letters);
            };
            if word.len == 0 {
                return Err(Refusal::Letters);
            }
            Ok(word.len)
        }
        Want::Int => {
            let Some(n) = integer(c, mode) else {
                return Err(Refusal::Number);
            };
            Ok(n)
        }
        Want::Real => {
            let Some(z) = real(c, mode) else {
                return Err(Refusal::Number);
            };
            Ok(lifted(z))
        }
    }
}
