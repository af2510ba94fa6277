// The geometry of a list block: what U and n give, worked out once and handed on by value.
#![tactic(auto)]

ghost use Rattle.std.specs.Prelude.{◌≡◌, ◌*◌, ◌^◌, ◌<◌, ◌≤◌};
ghost use Rattle.rules.specs.Limits.{limit};
ghost use Rattle.rules.specs.List.{width, dense, form_of};
ghost use Rattle.shape.specs.Shape.{shape_of, map_shape, form_shape};

use rules::{LIST_HEADER, MAP_EDITION, POINTER_SIZE};

// What stands for w in the shape of a bitmap, which has no low parts: a number, as a shape is seven of them (tests/counts,
// `numbers_alone`).
pub const BITMAP: usize = 64;

// U, n and w; the bits of the upper run; and the bytes at which the runs start and the block ends. A bitmap is an upper
// run alone.
#[derive(Clone, Copy)]
pub struct Shape {
    pub u: usize,
    pub n: usize,
    pub w: usize,
    pub bits: usize,
    pub lower: usize,
    pub upper: usize,
    pub end: usize,
}

// How many binary digits x has. What is counted is never 0, for which the compiler would have to provide.
fn digits(x: usize) -> usize
    requires { (0 < x) × (x < 2 ^ 32) }
    ensures { (2 ^ result ≤ 2 * x) × (x < 2 ^ result) × (result ≤ 32) }
{
    (63 - u64::leading_zeros(2 * x as u64 + 1)) as usize
}

// The width of the low parts of n elements below u: u has so many digits more than n, or one less. Dividing would take
// longer, and whoever opens a list waits for it.
fn width(u: usize, n: usize) -> usize
    requires { (0 < n) × (n ≤ u) × (u < 2 ^ 32) }
    ensures { (result ≡ width u n) × (result ≤ 31) }
{
    let more = digits(u) - digits(n);
    more - (u < n << more) as usize
}

// The shape of a block of n elements below u.
pub fn shape_of(u: usize, n: usize) -> Shape
    requires { (n ≤ u) × (u ≤ limit) }
    ensures { result ≡ shape_of u n }
{
    if n == 0 {
        return Shape {
            u,
            n,
            w: 0,
            bits: 0,
            lower: LIST_HEADER,
            upper: LIST_HEADER,
            end: LIST_HEADER,
        };
    }
    let w = width(u, n);
    let zeros = u >> w;
    let lower = LIST_HEADER + POINTER_SIZE * (zeros / 256);
    let upper = lower + 8 * ((n * w + 63) / 64);
    Shape {
        u,
        n,
        w,
        bits: n + zeros,
        lower,
        upper,
        end: upper + 8 * ((n + zeros + 63) / 64),
    }
}

// The shape of the bitmap of n elements below u.
pub fn map_shape(u: usize, n: usize) -> Shape
    requires { u ≤ limit }
    ensures { result ≡ map_shape u n }
{
    let at = LIST_HEADER + POINTER_SIZE * (u / 256);
    Shape {
        u,
        n,
        w: BITMAP,
        bits: u,
        lower: at,
        upper: at,
        end: at + 8 * ((u + 63) / 64),
    }
}

// Whether the two runs of n elements below u, whose shape is g, have more bits than there are numbers below u.
fn is_dense(u: usize, n: usize, g: Shape) -> bool
    requires { (g ≡ shape_of u n) × (n ≤ u) × (u ≤ limit) }
    ensures { result ≡ dense u n }
{
    u < g.bits + n * g.w
}

// The shape of n pages below u in an index of that version.
pub fn pages_shape(version: u32, u: usize, n: usize) -> Shape
    requires { (n ≤ u) × (u ≤ limit) }
    ensures { result ≡ form_shape (form_of version u n) u n }
{
    let g = shape_of(u, n);
    if version < MAP_EDITION {
        return g;
    }
    if is_dense(u, n, g) {
        return map_shape(u, n);
    }
    g
}
