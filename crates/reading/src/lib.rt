// Reading inside an accepted list block: its shape, its parts, the numbers stored before them, and an element by its
// place. Here and above, a block goes beside its shape: no struct holds a reference (tests/counts, `numbers_alone`).
#![tactic(auto)]

ghost use Rattle.std.specs.Prelude.{◌≡◌, ◌+◌, ◌-◌, ◌*◌, ◌^◌, ◌≤◌, ◌<◌, length, take, drop, get_or};
ghost use Rattle.rules.specs.Limits.{limit};
ghost use Rattle.rules.specs.Runs.{field};
ghost use Rattle.rules.specs.List.{map_size};
ghost use Rattle.rules.specs.ReadList.{list_u, list_n, form_at, decode};
ghost use Rattle.maplaws.specs.Maps.{FormValid};
ghost use Rattle.shape.specs.Shape.{map_shape, form_shape};
ghost use Rattle.readlaws.specs.Open.{Open, FormOpen, pointers_in, PointerAt, number_at, OneAt};

use rules::{LIST_N_AT, LIST_U_AT, MAP_VERSION, POINTER_SIZE, POINTER_ZERO_AT, VERSION_AT};
use shape::{BITMAP, Shape};

// The shape of the bitmap of n elements below u that fills the block. Where it starts is told from its end, as what is
// left of u / 256 would be three bytes of u, and u then no longer one load.
fn map_in(block: &[u8], u: usize, n: usize) -> Shape
    requires { (length block.now ≡ map_size u) × (u ≤ limit) }
    ensures { result ≡ map_shape u n }
{
    let end = block.len();
    let at = end - 8 * ((u + 63) / 64);
    Shape {
        u,
        n,
        w: BITMAP,
        bits: u,
        lower: at,
        upper: at,
        end,
    }
}

// The shape of an accepted block, in the form that its version tells.
pub fn shape_at(block: &[u8]) -> Shape
    requires { FormValid (form_at block.now) block.now }
    ensures { FormOpen (form_at block.now) block.now result
        × (result ≡ form_shape (form_at block.now) (list_u block.now) (list_n block.now)) }
{
    let u = numbers::read_u32(block, LIST_U_AT) as usize;
    let n = numbers::read_u32(block, LIST_N_AT) as usize;
    if block[VERSION_AT] == MAP_VERSION {
        return map_in(block, u, n);
    }
    shape::shape_of(u, n)
}

// The upper run.
pub fn upper_of(block: &[u8], g: Shape) -> &[u8]
    requires { Open block.now g }
    ensures { result.now ≡ take (g.end - g.upper) (drop g.upper block.now) }
{
    let from = g.upper;
    let to = g.end;
    &block[from..to]
}

// Number i that a block stores: a pointer, the place just after 256 * i zeros of the upper run, or in a bitmap how many
// pages are below 256 * i; 0 for i = 0.
pub fn number_in(block: &[u8], i: usize) -> usize
    requires { (13 + 4 * i ≤ length block.now) × (i ≤ 2 ^ 16) }
    ensures { result ≡ number_at block.now i }
{
    if i == 0 {
        return 0;
    }
    numbers::read_u32(block, POINTER_ZERO_AT + POINTER_SIZE * i) as usize
}

// Pointer number i of a block in two runs.
pub fn pointer_at(block: &[u8], g: Shape, i: usize) -> usize
    requires { Open block.now g × (i ≤ pointers_in g) }
    ensures { PointerAt block.now g i result }
{
    number_in(block, i)
}

// The low part of element number i, read from the lower run alone: no word of the upper run can be had here.
fn low_at(block: &[u8], g: Shape, i: usize) -> usize
    requires { Open block.now g × (i < g.n) }
    ensures { (result ≡ field block.now g.lower (i * g.w) g.w) × (result < 2 ^ 24) }
{
    let lower = g.lower;
    let upper = g.upper;
    runs::low_field(&block[lower..upper], i * g.w, g.w) as usize
}

// The element whose one stands at `place` of the upper run with `rank` ones below it.
pub fn value_at(block: &[u8], g: Shape, place: usize, rank: usize) -> usize
    requires { Open block.now g × OneAt block.now g.upper rank place }
    ensures { result ≡ get_or (decode block.now) rank 0 }
{
    let low = low_at(block, g, rank);
    ((place - rank) << g.w) + low
}
