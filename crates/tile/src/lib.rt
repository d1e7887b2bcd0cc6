// Tile points (document 01, "Tile points"): where a point lies from a tile's north-west corner, as one pair of 32-bit floats.
// All is proved, and the public function has no `requires`: it answers for any four numbers, and nothing is rounded.
#![tactic(auto)]

ghost use Rattle.std.specs.Prelude.{◌≡◌, true, ℤ};
ghost use Rattle.tile.specs.Tiles.{in_frame, scaled, along_of, tile_of};

use spelling::is_real;

// The largest difference: each whole number up to it is a 32-bit float.
const FRAME: i64 = 16_777_215;

#[derive(Clone, Copy)]
pub struct Offset {
    pub east: f32,
    pub south: f32,
}

#[tactic(auto, unfolding(crate::specs::Tiles::in_frame))]
fn is_inside(d: i64) -> bool
    ensures { result ≡ in_frame d }
{
    (0..=FRAME).contains(&d)
}

// A difference converted, which loses nothing, and then divided once by 256, which only lowers the exponent.
fn scale(d: i64) -> f32
    requires { in_frame d ≡ true }
    ensures { result ≡ scaled d }
{
    d as f32 / 256.0
}

// How far `to` lies past `from`, where both are reals and the difference is inside the frame.
#[tactic(auto, using(crate::proofs::Frame::difference_fits), unfolding(crate::specs::Tiles::along_of, crate::specs::Tiles::fits))]
fn difference(from: i64, to: i64) -> Option<f32>
    ensures { result ≡ along_of from to }
{
    if !is_real(from) || !is_real(to) {
        return None;
    }
    let d = to - from;
    if !is_inside(d) {
        return None;
    }
    Some(scale(d))
}

// The point x, y from the corner west, north: its east difference and its south difference, each over 256. None: refusal 20.
#[tactic(auto, unfolding(crate::specs::Tiles::tile_of, crate::specs::Tiles::along_of))]
pub fn tile_point(west: i64, north: i64, x: i64, y: i64) -> Option<Offset>
    ensures { result ≡ tile_of west north x y }
{
    let east = difference(west, x)?;
    let south = difference(y, north)?;
    Some(Offset { east, south })
}
