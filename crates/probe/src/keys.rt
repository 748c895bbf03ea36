// The steps on packed keys: their split order, and their places in a page.
ghost use Rattle.std.specs.Prelude.{◌≡◌, ◌/◌, ◌%◌, ◌<◌, ◌≤◌, get_or, length};
ghost use Rattle.shape.specs.Shape.{Fit, width_list};
ghost use Rattle.record.specs.Packed.{unpacked_key};
ghost use Rattle.page.specs.Fields.{record_offset};
ghost use Rattle.key_order.specs.Order.{first_step, compared};
ghost use Rattle.page_place.specs.Find.{Placed, first_one};
ghost use Rattle.probe.specs.Fields.{order_number, place_of};

use key_order::{compare, first_step};
use page_place::{find, first_one};
use shape::Widths;
use std::cmp::Ordering;

// A place as numbers: 1 for the record i that has the key, 0 for the place before record i.
#[repr(C)]
#[derive(Clone, Copy)]
pub struct PlaceFields {
    pub found: u64,
    pub place: usize,
}

// The number of the first split step in which two keys differ; W where they do not.
#[unsafe(no_mangle)]
pub extern "C" fn probe_first_step(widths: Widths, x: u64, y: u64) -> u64
    requires { Fit (width_list widths) }
    ensures { result ≡ first_step (width_list widths) (unpacked_key x) (unpacked_key y) }
{
    first_step(widths, x, y)
}

// How x stands to y: 0 for equal, 1 for less, 2 for greater.
#[unsafe(no_mangle)]
pub extern "C" fn probe_compare(widths: Widths, x: u64, y: u64) -> u32
    requires { Fit (width_list widths) }
    ensures { result ≡ order_number (compared (width_list widths) (unpacked_key x) (unpacked_key y)) }
{
    match compare(widths, x, y) {
        Ordering::Equal => 0,
        Ordering::Less => 1,
        Ordering::Greater => 2,
    }
}

// The place of a key among the n records of a page, of a shape without marks.
#[unsafe(no_mangle)]
pub extern "C" fn probe_find(page: &[u8], n: usize, widths: Widths, key: u64) -> PlaceFields
    requires { (record_offset n ≤ length page.now) × Fit (width_list widths) }
    ensures { Placed (width_list widths) 0 (unpacked_key key) page.now n (place_of result) }
{
    match find(page, n, widths, 0, key) {
        Ok(place) => PlaceFields { found: 1, place },
        Err(place) => PlaceFields { found: 0, place },
    }
}

// The place of the first of the n records of a page whose bit at the place g of a split step is 1;
// n where none has it. Of a shape without marks.
#[unsafe(no_mangle)]
pub extern "C" fn probe_first_one(page: &[u8], n: usize, widths: Widths, g: u64) -> usize
    requires n_in_bounds { (record_offset n ≤ length page.now) × Fit (width_list widths) }
    requires g_bound { (g < 64) × (g / 4 < get_or (width_list widths) (g % 4) 0) }
    ensures { result ≡ first_one (width_list widths) 0 g page.now n 0 }
{
    first_one(page, n, widths, 0, g)
}
