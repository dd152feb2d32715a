// The image of the slices and lists: every entry of every one of them as 64 bits, one after another.
ghost use Rattle.std.specs.Prelude.{◌+◌, ◌≤◌, length};
ghost use Rattle.rules.specs.Limits.{limits};
ghost use Rattle.call_image.specs.Image.{image_length};

use call_lending::{RingLists, Slices};
use call_replies::float_bits;
use tables::{FLOATS, IDS, MARKS, MAX_HALF_EDGES, NUMBERS, STARS};

// Where each slice begins in the image, in the order of the entries' parameters.
pub const FLOATS_AT: usize = 0;

pub const NUMBERS_AT: usize = FLOATS_AT + FLOATS;

pub const STARS_AT: usize = NUMBERS_AT + NUMBERS;

pub const MARKS_AT: usize = STARS_AT + STARS;

pub const IDS_AT: usize = MARKS_AT + MARKS;

// Where each list begins; a list has an entry for each half-edge.
pub const HALF_EDGES_AT: usize = IDS_AT + IDS;

pub const FIRST_AT: usize = HALF_EDGES_AT + MAX_HALF_EDGES;

pub const LENGTH_AT: usize = FIRST_AT + MAX_HALF_EDGES;

pub const FACE_AT: usize = LENGTH_AT + MAX_HALF_EDGES;

pub const SIDE_AT: usize = FACE_AT + MAX_HALF_EDGES;

pub const AREA_AT: usize = SIDE_AT + MAX_HALF_EDGES;

pub const IMAGE: usize = AREA_AT + MAX_HALF_EDGES;

pub type Image = [u64; IMAGE];

// An entry as 64 bits.
trait Bits: Copy {
    fn bits(self) -> u64;
}

impl Bits for f64 {
    fn bits(self) -> u64 {
        float_bits(self)
    }
}

impl Bits for u32 {
    fn bits(self) -> u64 {
        u64::from(self)
    }
}

impl Bits for u16 {
    fn bits(self) -> u64 {
        u64::from(self)
    }
}

impl Bits for u8 {
    fn bits(self) -> u64 {
        u64::from(self)
    }
}

impl Bits for bool {
    fn bits(self) -> u64 {
        u64::from(self)
    }
}

fn copy_table<T: Bits>(table: &[T], at: usize, image: &mut Image)
    requires { at + length table.now ≤ image_length limits }
{
    for (i, x) in table.iter().enumerate() {
        image[at + i] = x.bits();
    }
}

// The image of everything that a call is lent.
pub fn image_of(slices: &Slices, half_edges: &[u16; MAX_HALF_EDGES], rings: &RingLists) -> Image {
    let mut image = [0u64; IMAGE];
    copy_table(&slices.floats, FLOATS_AT, &mut image);
    copy_table(&slices.numbers, NUMBERS_AT, &mut image);
    copy_table(&slices.stars, STARS_AT, &mut image);
    copy_table(&slices.marks, MARKS_AT, &mut image);
    copy_table(&slices.ids, IDS_AT, &mut image);
    copy_table(half_edges, HALF_EDGES_AT, &mut image);
    copy_table(&rings.ring_first, FIRST_AT, &mut image);
    copy_table(&rings.ring_length, LENGTH_AT, &mut image);
    copy_table(&rings.ring_face, FACE_AT, &mut image);
    copy_table(&rings.ring_side, SIDE_AT, &mut image);
    copy_table(&rings.ring_area, AREA_AT, &mut image);
    image
}
