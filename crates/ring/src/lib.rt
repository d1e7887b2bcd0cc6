// The ring check of a sheet that is handed in (document 01, "Ring check"): is a ring of a border simple, or which pair of its edges
// is the first that is faulty. All of it is proved, and no public function has a `requires`. The search is crate `crossing`'s.
#![tactic(auto)]

ghost use Rattle.std.specs.Prelude.{◌≡◌};
ghost use Rattle.made.specs.Made.{tables};
ghost use Rattle.ring.specs.RingCheck.{ring_check_at};

use area::{AreaRefusal, ring_at};
use crossing::{FaultyPair, first_fault};
use made::Sheet;

// The check of one ring of a border: ring 0 is the outer one, ring i island i. None: the ring is simple.
#[tactic(auto, unfolding(crate::specs::RingCheck::ring_check_at))]
pub fn ring_check(
    sheet: &Sheet<'_>,
    row: usize,
    ring: usize,
) -> Result<Option<FaultyPair>, AreaRefusal>
    ensures { result ≡ ring_check_at sheet.now.header sheet.now.count (tables sheet.now.lent) row ring }
{
    let place = ring_at(sheet, row, ring)?;
    Ok(first_fault(sheet.lent.points, place.from, place.count)?)
}
