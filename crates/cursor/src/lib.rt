// A reader that keeps the file and its place, and hands out records one by one (document 01, "Records").
// All of it is proved, and no function has a `requires`. `new`, `next` and `next_at` have a struct that holds the caller's
// slice, and are thin; the work is `record::record_at`.
#![tactic(auto)]

ghost use Rattle.std.specs.Prelude.{◌≡◌};
ghost use Rattle.cursor.specs.Cursor.{at_start, handed, moved_on, step_at, nth_record};

use record::refusal::Refusal;
use record::{Found, Mode, record_at};

// The caller's file, the place in it of the next record, and the mode.
#[derive(Clone, Copy)]
pub struct Cursor<'a> {
    pub src: &'a [u8],
    pub at: usize,
    pub mode: Mode,
}

// An answer, and the place after it, which a refusal leaves where it was.
#[derive(Clone, Copy)]
pub struct Served {
    pub found: Result<Found, Refusal>,
    pub at: usize,
}

// A cursor at the file's start.
pub fn new<'a>(src: &'a [u8], mode: Mode) -> Cursor<'a>
    ensures { result ≡ at_start src.entry mode }
{
    Cursor { src, at: 0, mode }
}

// Hands out the record at the cursor's place, and moves past it. A refusal does not move it.
pub fn next<'s, 'a>(c: &'s mut Cursor<'a>, due: bool) -> Result<Found, Refusal>
    ensures { (result ≡ handed c.old due) × (c.new ≡ moved_on c.old due) }
{
    let found = record_at(c.src, c.at, c.mode, due)?;
    c.at = found.next;
    Ok(found)
}

// One request at a place, with plain parameters: for a caller that keeps the place itself, and for covered functions.
pub fn next_at(src: &[u8], at: usize, mode: Mode, due: bool) -> Served
    ensures { result ≡ step_at src.now at mode due }
{
    let mut c = Cursor { src, at, mode };
    let found = next(&mut c, due);
    Served { found, at: c.at }
}

// The record of a number, from 0: for a caller that has a number, as from a refusal, and wants the record's bytes.
// The records before it are asked for as no keywords: only the loose `EOF` would differ, and nothing follows that one.
// The first that is refused is the answer.
pub fn nth(src: &[u8], mode: Mode, n: usize, due: bool) -> Result<Found, Refusal>
    ensures { result ≡ nth_record src.now mode n due }
{
    let mut c = new(src, mode);
    for _ in 0..n {
        next(&mut c, false)?;
    }
    next(&mut c, due)
}
