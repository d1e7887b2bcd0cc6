// Square metres from a doubled area (document 02, T-01): a signed floor, toward minus infinity.
ghost use Rattle.std.specs.Prelude.{◌≡◌};
ghost use Rattle.std.specs.Int.Signed.{shr_z};
ghost use Rattle.sup.specs.Metres.{half_metre, metres_of};

const HALF_METRE: i64 = 1_000_000;

// The floor in halves of a square metre.
fn half_metres(doubled: i64) -> i64
    ensures { result ≡ shr_z doubled half_metre }
{
    if doubled < 0 {
        return -1 - (-1 - doubled) / HALF_METRE;
    }
    doubled / HALF_METRE
}

// By halves, so that no sum overflows: of an odd number the greater half, which is the floor of half of one more.
pub(crate) fn metres_of(doubled: i64) -> i64
    ensures { result ≡ metres_of doubled }
{
    (half_metres(doubled) + 1) >> 1
}
