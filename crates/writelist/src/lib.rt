// Writing one list block: the host's call.
#![tactic(auto)]

ghost use Rattle.rules.specs.Promises.{ListWritten};

use rules::{LIMIT, Refusal};

// Writes the list below u as a block at the front of the room.
pub fn write_list(u: u32, list: &[u32], room: &mut [u8]) -> Result<usize, Refusal>
    ensures { ListWritten u list.now room.old result room.new }
{
    if LIMIT < u as usize {
        return Err(Refusal::Limit);
    }
    if !rising::rises(u as usize, list) {
        return Err(Refusal::Lists);
    }
    let g = shape::shape_of(u as usize, list.len());
    if room.len() < g.end {
        return Err(Refusal::Room);
    }
    filling::fill(room, g, list);
    Ok(g.end)
}
