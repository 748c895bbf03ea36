// Places in a page whose records are in split order: that of a key, by halving, and that of the
// first record with bit 1 at a split step, where the page is divided.
#![tactic(auto)]

ghost use Rattle.std.specs.Prelude.{◌≡◌, ◌/◌, ◌%◌, ◌≤◌, ◌<◌, get_or, length};
ghost use Rattle.shape.specs.Shape.{Fit, width_list};
ghost use Rattle.record.specs.Packed.{unpacked_key};
ghost use Rattle.page.specs.Fields.{record_offset};
ghost use Rattle.page_place.specs.Find.{Placed, first_one};

use key_order::{compare, pair_bit};
use page::code_at;
use shape::Widths;
use std::cmp::Ordering;

// Looks a packed key of encodings up among the n records of a page, where a shape adds a bias to
// its values: Ok(i) where record i has the key, Err(i) where the key would go in before record i, n
// for behind all. Of a page in another order it tells what the records beside the place say.
pub fn find(page: &[u8], n: usize, widths: Widths, bias: u64, key: u64) -> Result<usize, usize>
    requires { (record_offset n ≤ length page.now) × Fit (width_list widths) }
    ensures { Placed (width_list widths) bias (unpacked_key key) page.now n result }
{
    let mut low = 0;
    let mut high = n;
    while low < high {
        let mid = low + (high - low) / 2;
        match compare(widths, key, code_at(page, mid, bias)) {
            Ordering::Less => high = mid,
            Ordering::Equal => return Ok(mid),
            Ordering::Greater => low = mid + 1,
        }
    }
    Err(low)
}

// The place of the first of the n records of a page whose bit at the place g of a split step is 1;
// n where none has it, as a page is cut there too.
pub fn first_one(page: &[u8], n: usize, widths: Widths, bias: u64, g: u64) -> usize
    requires n_in_bounds { (record_offset n ≤ length page.now) × Fit (width_list widths) }
    requires g_bound { (g < 64) × (g / 4 < get_or (width_list widths) (g % 4) 0) }
    ensures { result ≡ first_one (width_list widths) bias g page.now n 0 }
{
    for i in 0..n {
        if pair_bit(widths, code_at(page, i, bias), g) {
            return i;
        }
    }
    n
}
