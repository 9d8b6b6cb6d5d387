// The three ways, by number.
ghost use Rattle.std.specs.Prelude.{◌≡◌};
ghost use Rattle.activities.specs.Ways.{way_number};

use model::Way;

// A way's place among three.
pub fn way_number(way: Way) -> usize
    ensures { result ≡ way_number way }
{
    way as usize
}
