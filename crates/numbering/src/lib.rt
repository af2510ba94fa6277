// The numbers of a bitmap, counted in the bits that stand in its block and written into it.
#![tactic(auto)]

ghost use Rattle.std.specs.Prelude.{◌≡◌};
ghost use Rattle.rules.specs.List.{bitmap};
ghost use Rattle.rules.specs.InPlace.{map_numbered};
ghost use Rattle.filllaws.specs.Filling.{FittingAs};

use rules::{LIST_HEADER, POINTER_SIZE};
use shape::Shape;

// Writes for each i from 1 to U / 256 how many of the first 256 * i bits of the map are 1.
pub fn set_numbers(block: &mut [u8], g: Shape)
    requires { FittingAs bitmap g block.old }
    ensures { block.new ≡ map_numbered g.u block.old }
{
    let mut count = 0;
    for i in 0..g.u / 256 {
        count += runs::ones_of(block, g.upper, 4 * i, 4 * i + 4);
        numbers::write_u32(block, LIST_HEADER + POINTER_SIZE * i, count as u64);
    }
}
