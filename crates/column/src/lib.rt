// The column of a malformed number (document 02, T-04): how far its bytes go as the beginning of a number of that form and mode.
// All of it is proved, and no public function has a `requires`. It is worked out where a number is refused, and nowhere else.
#![tactic(auto)]

ghost use Rattle.std.specs.Prelude.{◌≡◌, suc, cond, drop, eqb};
ghost use Rattle.record.specs.Record.{is_exact};
ghost use Rattle.number.specs.Number.{digit};
ghost use Rattle.column.specs.Spots.{is_sign, spot_after, is_free, spot_in, is_stuck, stretch};
ghost use Rattle.column.specs.declared.Spot.TheVariants as Spot;
ghost use Rattle.column.specs.Columns.{integer_column, real_column, content_column, record_column, refusal_column, integer_placed, real_placed};

use number::{integer, real};
use record::refusal::Refusal;
use record::{Mode, is_exact, is_former, line_at};
use token::Want;

// What may come next in a number: `spot_after` says it of each.
#[derive(Clone, Copy, Debug, PartialEq, Eq)]
pub enum Spot {
    Stuck,
    IntegerPad(usize),
    LastDigits(usize),
    RealPad(usize),
    Negative(usize),
    ToPoint(usize),
    NegativeZero,
    NotAllZero(usize),
    LooseInteger,
    AtMost(usize),
    LooseReal,
    AfterSign,
    UpToPoint(usize),
    Decimals(usize),
    Tail,
}

// On to `to` by one byte, else to `or`.
fn by(b: u8, k: u8, to: Spot, or: Spot) -> Spot
    ensures { result ≡ cond (eqb b k) to or }
{
    if b == k { to } else { or }
}

// On by a digit.
fn by_digit(b: u8, to: Spot) -> Spot
    ensures { result ≡ cond (digit b) to Spot.Stuck }
{
    if b.is_ascii_digit() { to } else { Spot::Stuck }
}

// On by a digit that is no zero.
fn by_figure(b: u8, to: Spot) -> Spot
    ensures { result ≡ cond (eqb b 48) Spot.Stuck (cond (digit b) to Spot.Stuck) }
{
    by(b, b'0', Spot::Stuck, by_digit(b, to))
}

// On by a sign.
fn by_sign(b: u8, to: Spot, or: Spot) -> Spot
    ensures { result ≡ cond (is_sign b) to or }
{
    if b == b'+' || b == b'-' { to } else { or }
}

#[tactic(auto, unfolding(crate::specs::Spots::spot_after))]
fn after_integer_pad(k: usize, b: u8) -> Spot
    ensures { result ≡ spot_after (Spot.IntegerPad k) b }
{
    if k == 0 {
        return by_digit(b, Spot::LastDigits(0));
    }
    by(
        b,
        b' ',
        Spot::IntegerPad(k - 1),
        by_figure(b, Spot::LastDigits(k)),
    )
}

#[tactic(auto, unfolding(crate::specs::Spots::spot_after))]
fn after_real_pad(k: usize, b: u8) -> Spot
    ensures { result ≡ spot_after (Spot.RealPad k) b }
{
    if k == 0 {
        return by_digit(b, Spot::ToPoint(0));
    }
    let digit = by_figure(b, Spot::ToPoint(k));
    by(
        b,
        b' ',
        Spot::RealPad(k - 1),
        by(b, b'-', Spot::Negative(k - 1), digit),
    )
}

#[tactic(auto, unfolding(crate::specs::Spots::spot_after))]
fn after_negative(k: usize, b: u8) -> Spot
    ensures { result ≡ spot_after (Spot.Negative k) b }
{
    if k == 0 {
        return by(b, b'0', Spot::NegativeZero, by_digit(b, Spot::ToPoint(0)));
    }
    by_figure(b, Spot::ToPoint(k))
}

#[tactic(auto, unfolding(crate::specs::Spots::spot_after))]
fn after_not_all_zero(k: usize, b: u8) -> Spot
    ensures { result ≡ spot_after (Spot.NotAllZero k) b }
{
    if k == 0 {
        return by_figure(b, Spot::LastDigits(0));
    }
    by(
        b,
        b'0',
        Spot::NotAllZero(k - 1),
        by_digit(b, Spot::LastDigits(k)),
    )
}

#[tactic(auto, unfolding(crate::specs::Spots::spot_after))]
fn after_at_most(k: usize, b: u8) -> Spot
    ensures { result ≡ spot_after (Spot.AtMost k) b }
{
    if k == 0 {
        return by(b, b' ', Spot::Tail, Spot::Stuck);
    }
    by(b, b' ', Spot::Tail, by_digit(b, Spot::AtMost(k - 1)))
}

#[tactic(auto, unfolding(crate::specs::Spots::spot_after))]
fn after_up_to_point(k: usize, b: u8) -> Spot
    ensures { result ≡ spot_after (Spot.UpToPoint k) b }
{
    if k == 0 {
        return by(b, b'.', Spot::Decimals(2), Spot::Stuck);
    }
    by(
        b,
        b'.',
        Spot::Decimals(2),
        by_digit(b, Spot::UpToPoint(k - 1)),
    )
}

#[tactic(auto, unfolding(crate::specs::Spots::spot_after))]
fn after_loose_real(b: u8) -> Spot
    ensures { result ≡ spot_after Spot.LooseReal b }
{
    let digit = by_digit(b, Spot::UpToPoint(7));
    by(b, b' ', Spot::LooseReal, by_sign(b, Spot::AfterSign, digit))
}

// Where a byte leads.
#[tactic(auto, unfolding(crate::specs::Spots::spot_after))]
fn step(at: Spot, b: u8) -> Spot
    ensures { result ≡ spot_after at b }
{
    match at {
        Spot::Stuck | Spot::LastDigits(0) => Spot::Stuck,
        Spot::IntegerPad(k) => after_integer_pad(k, b),
        Spot::LastDigits(k) => by_digit(b, Spot::LastDigits(k - 1)),
        Spot::RealPad(k) => after_real_pad(k, b),
        Spot::Negative(k) => after_negative(k, b),
        Spot::ToPoint(0) => by(b, b'.', Spot::LastDigits(3), Spot::Stuck),
        Spot::ToPoint(k) => by_digit(b, Spot::ToPoint(k - 1)),
        Spot::NegativeZero => by(b, b'.', Spot::NotAllZero(2), Spot::Stuck),
        Spot::NotAllZero(k) => after_not_all_zero(k, b),
        Spot::LooseInteger => by(b, b' ', Spot::LooseInteger, by_digit(b, Spot::AtMost(3))),
        Spot::AtMost(k) => after_at_most(k, b),
        Spot::LooseReal => after_loose_real(b),
        Spot::AfterSign => by_digit(b, Spot::UpToPoint(6)),
        Spot::UpToPoint(k) => after_up_to_point(k, b),
        Spot::Decimals(0) => by_digit(b, Spot::AtMost(0)),
        Spot::Decimals(k) => by_digit(b, Spot::Decimals(k - 1)),
        Spot::Tail => by(b, b' ', Spot::Tail, Spot::Stuck),
    }
}

// Behind a blank behind a number, where the former reading takes any bytes.
#[tactic(auto, unfolding(crate::specs::Spots::is_free))]
fn is_free(at: Spot, mode: Mode) -> bool
    ensures { result ≡ is_free mode at }
{
    matches!(at, Spot::Tail) && is_former(mode)
}

// Where it leads in a mode.
#[tactic(auto, unfolding(crate::specs::Spots::spot_in))]
fn step_in(at: Spot, b: u8, mode: Mode) -> Spot
    ensures { result ≡ spot_in mode at b }
{
    if is_free(at, mode) {
        return Spot::Tail;
    }
    step(at, b)
}

#[tactic(auto, unfolding(crate::specs::Spots::is_stuck))]
fn is_stuck(at: Spot) -> bool
    ensures { result ≡ is_stuck at }
{
    matches!(at, Spot::Stuck)
}

// How many bytes go, before no number goes on so.
#[tactic(auto, using(crate::proofs::ColumnWays::stretch_ways))]
fn stretch_of(c: &[u8], start: Spot, mode: Mode) -> usize
    ensures { result ≡ stretch mode start c.now }
{
    let mut at = start;
    for (i, &b) in c.iter().enumerate() {
        at = step_in(at, b, mode);
        if is_stuck(at) {
            return i;
        }
    }
    c.len()
}

// The column of a number that is malformed, by where its form starts in exact mode and in the others.
#[tactic(auto, using(crate::proofs::ColumnWays::stretch_fits))]
fn number_column(c: &[u8], mode: Mode, exact: Spot, loose: Spot) -> usize
    ensures { result ≡ suc (stretch mode (cond (is_exact mode) exact loose) c.now) }
{
    let start = if is_exact(mode) { exact } else { loose };
    stretch_of(c, start, mode) + 1
}

// The column of an integer that is malformed.
#[tactic(auto, unfolding(crate::specs::Columns::integer_column, crate::specs::Spots::integer_start))]
fn integer_column(c: &[u8], mode: Mode) -> usize
    ensures { result ≡ integer_column mode c.now }
{
    number_column(c, mode, Spot::IntegerPad(3), Spot::LooseInteger)
}

// The column of a real that is malformed.
#[tactic(auto, unfolding(crate::specs::Columns::real_column, crate::specs::Spots::real_start))]
fn real_column(c: &[u8], mode: Mode) -> usize
    ensures { result ≡ real_column mode c.now }
{
    number_column(c, mode, Spot::RealPad(7), Spot::LooseReal)
}

// A content as an integer, or the column where it is malformed.
#[tactic(auto, unfolding(crate::specs::Columns::integer_placed))]
pub fn placed_integer(c: &[u8], mode: Mode) -> Result<usize, usize>
    ensures { result ≡ integer_placed mode c.now }
{
    integer(c, mode).ok_or_else(|| integer_column(c, mode))
}

// A content as a real, in thousandths, or the column where it is malformed.
#[tactic(auto, unfolding(crate::specs::Columns::real_placed))]
pub fn placed_real(c: &[u8], mode: Mode) -> Result<i64, usize>
    ensures { result ≡ real_placed mode c.now }
{
    real(c, mode).ok_or_else(|| real_column(c, mode))
}

// The column of a content, by what it was to be read as.
fn content_column(c: &[u8], mode: Mode, want: Want) -> usize
    ensures { result ≡ content_column mode want c.now }
{
    match want {
        Want::Key | Want::Text => 0,
        Want::Int => integer_column(c, mode),
        Want::Real => real_column(c, mode),
    }
}

// The same of the record at the front of the bytes.
#[tactic(auto, unfolding(crate::specs::Columns::record_column), using(crate::proofs::ColumnWays::line_counted))]
fn record_column(bs: &[u8], mode: Mode, want: Want) -> usize
    ensures { result ≡ record_column mode want bs.now }
{
    match line_at(bs, mode, false) {
        Err(_) => 0,
        Ok(line) => content_column(&bs[..line.len], mode, want),
    }
}

// The column of a refusal, whose record begins at `at` and was to be read so: 0 but for 8. Callers may hand in any number.
#[tactic(auto, using(crate::proofs::ColumnWays::refusal_ways))]
pub fn column_at(src: &[u8], at: usize, mode: Mode, want: Want, number: usize) -> usize
    ensures { result ≡ refusal_column mode want number (drop at src.now) }
{
    if number != Refusal::Number.number() || at > src.len() {
        return 0;
    }
    record_column(&src[at..], mode, want)
}
