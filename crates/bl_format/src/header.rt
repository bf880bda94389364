//! The magic and the version.
ghost use Rattle.std.specs.Prelude.{◌≡◌};
ghost use Rattle.bl_format.specs.Image.{version};

use bl_program::{Demand, SiteWeight};

/// The first four bytes of an image.
pub const MAGIC: [u8; 4] = [0x42, 0x4C, 0x49, 0x4D];

/// The version of an image with these demands and weights: 1 where there are none, else 2.
pub fn version_of(demands: &[Demand], weights: &[SiteWeight]) -> u8
    ensures { result ≡ version demands.now weights.now }
{
    match (demands, weights) {
        ([], []) => 1,
        _ => 2,
    }
}
