// A record judged by pairs of neighbouring bytes, from the LF before it on, with no early return: the compiler makes vector
// code of it.
ghost use Rattle.std.specs.Prelude.{◌≡◌, ◌+◌, ◌-◌, ◌<◌, ◌≤◌, true, length, slice_index};
ghost use Rattle.laws.specs.Lists.{below};
ghost use Rattle.number.specs.Number.{digit};
ghost use Rattle.quick.specs.Neighbours.{follows, pair_at, Tailed, Judged};

use crate::by_word::four;

// Of four bytes in one number: all of the first, and the first half of each other.
const POINT_AND_HALVES: usize = 0xF0F0F0FF;
// So a point and three bytes of 48 to 63 stand there.
const POINT_AND_PLACES: usize = 0x3030302E;
// Added to those, it leaves the first half of a digit alone, and of no other.
const PAST_NINE: usize = 0x06060600;

#[tactic(auto, using(crate::proofs::NeighbourLaws::is_digit_ways))]
fn is_digit(b: u8) -> bool
    ensures { result ≡ digit b }
{
    std::num::wrapping_sub_u8(b, 48) <= 9
}

#[tactic(auto, using(crate::proofs::NeighbourLaws::follows_is))]
fn follows(a: u8, b: u8) -> bool
    ensures { result ≡ follows a b }
{
    (is_digit(b) & (is_digit(a) | (b != 48))) | (((a == 32) | (a == 10)) & ((b == 32) | (b == 45)))
}

// An LF and eight bytes of a record stand behind each other as exact mode has them.
#[tactic(auto, using(crate::proofs::NeighbourLaws::are_neighbours_ways))]
fn are_neighbours(c: &[u8]) -> bool
    requires { 9 ≤ length c.now }
    ensures { result ≡ true → below 8 (pair_at c.now) ≡ true }
{
    follows(c[0], c[1])
        & follows(c[1], c[2])
        & follows(c[2], c[3])
        & follows(c[3], c[4])
        & follows(c[4], c[5])
        & follows(c[5], c[6])
        & follows(c[6], c[7])
        & follows(c[7], c[8])
}

// What neighbours do not tell, for a record of so many bytes whose line end begins with `end`.
#[tactic(auto, using(crate::proofs::TailLaws::is_tailed_ways))]
fn is_tailed(s: &[u8], at: usize, width: usize, end: u8) -> bool
    requires { (at + 14 ≤ length s.now) × (0 < width) × (width ≤ 14) }
    ensures { result ≡ true → Tailed s.now at width end }
{
    let y = four(s[at + 8], s[at + 9], s[at + 10], s[at + 11]);
    if y & POINT_AND_HALVES != POINT_AND_PLACES {
        return false;
    }
    if (y + PAST_NINE) & POINT_AND_HALVES != POINT_AND_PLACES {
        return false;
    }
    if s[at + 12] != end {
        return false;
    }
    if s[at + (width - 1)] != 10 {
        return false;
    }
    s[at + 7] >= 48
}

// How many such records stand from a place behind an LF on, `most` at most. Nothing else calls `are_neighbours`: it is then
// compiled into the loop, which keeps its constants in registers.
pub(crate) fn usual_records(s: &[u8], at: usize, width: usize, end: u8, most: usize) -> usize
    requires { (14 ≤ length s.now) × (0 < width) × (width ≤ 14) × (0 < at) × (slice_index s.now (at - 1) ≡ 10) }
    ensures { (result ≤ most) × Judged s.now at width end result }
{
    let mut here = at;
    for k in 0..most {
        if here > s.len() - 14 {
            return k;
        }
        if !are_neighbours(&s[here - 1..here + 12]) {
            return k;
        }
        if !is_tailed(s, here, width, end) {
            return k;
        }
        here += width;
    }
    most
}
