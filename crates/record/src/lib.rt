// The records of a file (document 01, "Records"; 02, T-09): what stands at a place of it, in each mode.
// All of it is proved, and no public function has a `requires`. A record is found in one pass over its bytes.
#![tactic(auto)]

pub mod refusal;

ghost use Rattle.std.specs.Prelude.{◌≡◌, true, false, cond, ◌<◌, ◌≤◌, length, take, leb, Err};
ghost use Rattle.laws.specs.Lists.{run, all, same};
ghost use Rattle.record.specs.declared.refusal.Refusal.TheVariants.{Length};
ghost use Rattle.record.specs.Refusals.{record_most};
ghost use Rattle.record.specs.Record.{is_exact, is_former, plain, not_lf, got, line_of, record_at};
ghost use Rattle.record.specs.Scan.{crlf_at, Spoilt};

use refusal::Refusal;

// How a file is read. Former is the loose mode as it was before T-09, for the conversion of files with notes behind their numbers.
#[derive(Clone, Copy)]
pub enum Mode {
    Loose,
    Exact,
    Former,
}

// The record at the front of some bytes: its content's length, and its own with the line end.
#[derive(Clone, Copy)]
pub struct Line {
    pub len: usize,
    pub width: usize,
}

// A record of a file: its content, and the place past its line end.
#[derive(Clone, Copy)]
pub struct Found {
    pub start: usize,
    pub len: usize,
    pub next: usize,
}

// A file is at most so long, and a record's content.
pub const FILE_MOST: usize = 16_777_216;

const RECORD_MOST: usize = 255;

const LF: u8 = 10;

const CR: u8 = 13;

// Only the printed layout is taken.
pub fn is_exact(mode: Mode) -> bool
    ensures { result ≡ is_exact mode }
{
    matches!(mode, Mode::Exact)
}

// Notes may stand behind numbers.
pub fn is_former(mode: Mode) -> bool
    ensures { result ≡ is_former mode }
{
    matches!(mode, Mode::Former)
}

// How many bytes at the front a content may hold.
#[tactic(auto, using(laws::proofs::ListLaws::runs, crate::proofs::RecordCases::byte_tests))]
fn plain_run(bs: &[u8]) -> usize
    ensures { result ≡ run plain bs.now }
{
    for (i, &b) in bs.iter().enumerate() {
        if b < 32 || b > 126 {
            return i;
        }
    }
    bs.len()
}

// Every byte is one that a content may hold.
#[tactic(auto, using(laws::proofs::ListLaws::wholes))]
pub fn is_plain(bs: &[u8]) -> bool
    ensures { result ≡ all plain bs.now }
{
    plain_run(bs) == bs.len()
}

// How many bytes stand before the first LF.
#[tactic(auto, using(laws::proofs::ListLaws::runs, crate::proofs::RecordCases::byte_tests))]
fn until_lf(bs: &[u8]) -> usize
    ensures { result ≡ run not_lf bs.now }
{
    for (i, &b) in bs.iter().enumerate() {
        if b == LF {
            return i;
        }
    }
    bs.len()
}

// Two slices hold the same bytes.
#[tactic(auto, using(laws::proofs::ListLaws::same_bytes))]
pub fn is_same(a: &[u8], b: &[u8]) -> bool
    ensures { result ≡ same a.now b.now }
{
    a == b
}

// A CR and an LF stand at `n`.
#[tactic(auto, unfolding(crate::specs::Scan::crlf_at))]
fn is_line_end(bs: &[u8], n: usize) -> bool
    requires { n < length bs.now }
    ensures { result ≡ crlf_at bs.now n }
{
    bs[n] == CR && n + 1 < bs.len() && bs[n + 1] == LF
}

// Plain bytes before a line end: a content, if they are not too many.
fn sized(len: usize, width: usize) -> Result<Line, Refusal>
    ensures { result ≡ cond (leb len record_most) (got len width) (Err Length) }
{
    if len <= RECORD_MOST {
        return Ok(Line { len, width });
    }
    Err(Refusal::Length)
}

// The byte at `n` is none that a content may hold, and no line end: the record is refused, by where its LF stands.
#[tactic(auto, using(crate::proofs::RecordWays::spoilt_ways))]
fn spoilt(bs: &[u8], n: usize, mode: Mode) -> Result<Line, Refusal>
    requires { Spoilt bs.now n }
    ensures { result ≡ line_of mode false bs.now }
{
    let end = n + until_lf(&bs[n..]);
    if bs.len() <= end {
        return Err(Refusal::Cut);
    }
    if bs[end - 1] == CR {
        if end - 1 > RECORD_MOST {
            return Err(Refusal::Length);
        }
        return Err(Refusal::Byte);
    }
    if is_exact(mode) {
        return Err(Refusal::LineEnd);
    }
    if end > RECORD_MOST {
        return Err(Refusal::Length);
    }
    Err(Refusal::Byte)
}

// No byte is left behind the plain ones, so there is no LF: cut, but for the loose EOF.
#[tactic(auto, using(crate::proofs::RecordWays::unended_ways))]
fn unended(bs: &[u8], mode: Mode, due: bool) -> Result<Line, Refusal>
    requires { all plain bs.now ≡ true }
    ensures { result ≡ line_of mode due bs.now }
{
    if is_exact(mode) {
        return Err(Refusal::Cut);
    }
    if !due {
        return Err(Refusal::Cut);
    }
    if is_same(bs, b"EOF") {
        return Ok(Line { len: 3, width: 3 });
    }
    Err(Refusal::Cut)
}

// The record at the front of the bytes, in one pass over them.
#[tactic(auto, using(crate::proofs::RecordWays::line_ways))]
pub fn line_at(bs: &[u8], mode: Mode, due: bool) -> Result<Line, Refusal>
    ensures { result ≡ line_of mode due bs.now }
{
    let n = plain_run(bs);
    if bs.len() <= n {
        return unended(bs, mode, due);
    }
    if bs[n] == LF {
        if is_exact(mode) {
            return Err(Refusal::LineEnd);
        }
        return sized(n, n + 1);
    }
    if is_line_end(bs, n) {
        return sized(n, n + 2);
    }
    spoilt(bs, n, mode)
}

// The record at a place of a file. A file that is too long is refused before all else.
#[tactic(auto, using(crate::proofs::RecordWays::record_ways), unfolding(crate::specs::Record::record_at))]
pub fn record_at(src: &[u8], at: usize, mode: Mode, due: bool) -> Result<Found, Refusal>
    ensures { result ≡ record_at src.now at mode due }
{
    if src.len() > FILE_MOST {
        return Err(Refusal::TooLong);
    }
    if src.len() <= at {
        return Err(Refusal::Cut);
    }
    let Line { len, width } = line_at(&src[at..], mode, due)?;
    Ok(Found {
        start: at,
        len,
        next: at + width,
    })
}
