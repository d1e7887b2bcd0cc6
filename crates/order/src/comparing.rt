// Which of two rows comes first: by letters, then by net, then by row.
ghost use Rattle.std.specs.Prelude.{◌≡◌};
ghost use Rattle.made.specs.Made.{tables};
ghost use Rattle.order.specs.Compare.{is_after, by_bytes};
ghost use Rattle.order.specs.SupOrder.{comes_at, goes_before};
ghost use Rattle.order.specs.Windows.{is_past};

use crate::{letters_at, net_at};
use made::Lent;
use row::Stand;
use std::cmp::Ordering;

// By unsigned bytes, a beginning before its continuation. The first bytes first: most codes that a walk compares differ there, and slices' `cmp`,
// which goes by groups of bytes, takes longer to see it.
#[inline(always)]
#[tactic(auto, using(crate::proofs::ByteWays::first_ways))]
pub fn compare_bytes(a: &[u8], b: &[u8]) -> Ordering
    ensures { result ≡ by_bytes a.now b.now }
{
    if a.len() > 0 && b.len() > 0 {
        if a[0] < b[0] {
            return Ordering::Less;
        }
        if b[0] < a[0] {
            return Ordering::Greater;
        }
    }
    a.cmp(b)
}

pub(crate) fn is_later(a: &[u8], b: &[u8]) -> bool
    ensures { result ≡ is_after (by_bytes a.now b.now) }
{
    compare_bytes(a, b).is_gt()
}

// The nets cost most, and are asked for only where the letters are equal.
#[tactic(auto, unfolding(crate::specs::SupOrder::comes_at, crate::specs::SupOrder::by_code_and_net))]
fn compare_at(lent: &Lent<'_>, a: Stand, b: Stand) -> Ordering
    ensures { result ≡ comes_at (tables lent.now) a b }
{
    let mine = letters_at(lent.rows, lent.letters, a);
    match compare_bytes(mine, letters_at(lent.rows, lent.letters, b)) {
        Ordering::Equal => net_at(lent, a)
            .cmp(&net_at(lent, b))
            .then(a.row.cmp(&b.row)),
        other => other,
    }
}

// Compiled into the walk, which else keeps what it carries on in memory.
#[inline(always)]
#[tactic(auto, unfolding(crate::specs::SupOrder::goes_before))]
pub fn is_before(lent: &Lent<'_>, a: Stand, b: Stand) -> bool
    ensures { result ≡ goes_before (tables lent.now) a b }
{
    compare_at(lent, a, b).is_lt()
}

#[tactic(auto, unfolding(crate::specs::Windows::is_past))]
pub fn is_past(lent: &Lent<'_>, since: Option<Stand>, d: Stand) -> bool
    ensures { result ≡ is_past (tables lent.now) since d }
{
    match since {
        None => true,
        Some(e) => is_before(lent, e, d),
    }
}
