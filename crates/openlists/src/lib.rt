// Opening the lists of a question: from their places in the card to their numbers, with the list that leads first.
#![tactic(auto)]

ghost use Rattle.std.specs.Prelude.{◌≡◌, ◌*◌, ◌<◌, length};
ghost use Rattle.std.proofs.Math.Seq.{paste};
ghost use Rattle.rules.specs.ReadList.{list_u, list_n, form_at};
ghost use Rattle.rules.specs.Common.{lead_of};
ghost use Rattle.shape.specs.Shape.{form_shape};
ghost use Rattle.maplaws.specs.Maps.{FormValid};
ghost use Rattle.openlists.specs.Places.{bytes_of, place_part, place_pages, placed_in, numbers_of, numbers_at};
ghost use Rattle.openlists.specs.Places.{source_of, Within, PlaceOk, Places, Alike, Slots, Opened};

use querylaws::{BITS, BOUND, FROM, LENGTH, LOWER, TO, UPPER, WIDTH};
use rules::LIST_N_AT;

// The bytes at place i.
fn part_of<'a>(card: &'a [u8], places: &[u32], i: usize) -> &'a [u8]
    requires { (i < 8) × PlaceOk card.now places.now i }
    ensures { result.now ≡ place_part card.now places.now i }
{
    let from = places[2 * i] as usize;
    let to = places[2 * i + 1] as usize;
    &card[from..to]
}

// How many elements the list at place i has.
fn length_of(card: &[u8], places: &[u32], i: usize) -> usize
    requires { (i < 8) × PlaceOk card.now places.now i }
    ensures { result ≡ length (place_pages card.now places.now i) }
{
    numbers::read_u32(part_of(card, places, i), LIST_N_AT) as usize
}

// The place of the shortest list, the first of equals.
fn lead_of(card: &[u8], places: &[u32], k: usize) -> usize
    requires { Places card.now places.now k }
    ensures { (result ≡ lead_of (placed_in card.now places.now k)) × (result < k) }
{
    let mut lead = 0;
    let mut least = length_of(card, places, 0);
    for i in 1..k {
        let n = length_of(card, places, i);
        if n < least {
            lead = i;
            least = n;
        }
    }
    lead
}

// The numbers of the accepted list from byte `from` up to byte `to`: where it is, and its shape.
pub fn numbers_at(card: &[u8], from: usize, to: usize) -> [u32; 8]
    requires { Within card.now from to
        × FormValid (form_at (bytes_of card.now from to)) (bytes_of card.now from to) }
    ensures { result ≡ numbers_of from to (form_shape (form_at (bytes_of card.now from to))
        (list_u (bytes_of card.now from to)) (list_n (bytes_of card.now from to))) }
{
    let g = reading::shape_at(&card[from..to]);
    let mut row = [0u32; 8];
    row[FROM] = from as u32;
    row[TO] = to as u32;
    row[BOUND] = g.u as u32;
    row[WIDTH] = g.w as u32;
    row[BITS] = g.bits as u32;
    row[LOWER] = g.lower as u32;
    row[UPPER] = g.upper as u32;
    row[LENGTH] = g.n as u32;
    row
}

// The numbers of the list at place i.
fn open_list(card: &[u8], places: &[u32], i: usize) -> [u32; 8]
    requires { (i < 8) × PlaceOk card.now places.now i }
    ensures { result ≡ numbers_at card.now places.now i }
{
    numbers_at(card, places[2 * i] as usize, places[2 * i + 1] as usize)
}

// Puts a list's numbers into a slot.
pub fn put_list(shapes: &mut [u32], slot: usize, numbers: [u32; 8])
    requires { (length shapes.old ≡ 64) × (slot < 8) }
    ensures { shapes.new ≡ paste shapes.old (8 * slot) numbers 8 }
{
    shapes[8 * slot..8 * slot + 8].copy_from_slice(&numbers);
}

// The place whose list stands in slot t: the lead's first, the others behind it in their order.
pub fn source_of(lead: usize, t: usize) -> usize
    ensures { result ≡ source_of lead t }
{
    if t == 0 {
        return lead;
    }
    if t <= lead {
        return t - 1;
    }
    t
}

// Opens the lists at the first k places into the 64 numbers, that at place `lead` first and the others in their order.
fn open_slots(card: &[u8], places: &[u32], k: usize, lead: usize, shapes: &mut [u32])
    requires { Places card.now places.now k × (lead < k) × (length shapes.old ≡ 64) }
    ensures { Slots card.now places.now lead k shapes.new }
{
    for t in 0..k {
        let numbers = open_list(card, places, source_of(lead, t));
        put_list(shapes, t, numbers);
    }
}

// Opens them with the shortest first, and returns its place.
pub fn open_lists(card: &[u8], places: &[u32], k: usize, shapes: &mut [u32]) -> usize
    requires { Places card.now places.now k × Alike card.now places.now k × (length shapes.old ≡ 64) }
    ensures { (result ≡ lead_of (placed_in card.now places.now k))
        × Opened card.now places.now k shapes.new }
{
    let lead = lead_of(card, places, k);
    open_slots(card, places, k, lead, shapes);
    lead
}
