// What the call check compares the sums of its walk with: the pages in use and the state's tally
// (document 01, "Calls").
#![tactic(auto)]

ghost use Rattle.std.specs.Prelude.{◌≡◌, ◌*◌, ◌≤◌, length};
ghost use Rattle.page.specs.Page.{page_size};
ghost use Rattle.check_counts.specs.Counts.{used_pages, same_tally};

use page::page_size;
use record::numbers::read16;
use store::Tally;

// How many of the first n pages of b records are not free.
pub fn pages_in_use(capacity: u32, n: u32, pages: &[u8]) -> u32
    requires { n * page_size capacity ≤ length pages.now }
    ensures { result ≡ used_pages capacity pages.now n }
{
    let size = page_size(capacity as usize);
    let mut used: u32 = 0;
    for page in 0..n as usize {
        if read16(pages, page * size) != 0 {
            used += 1;
        }
    }
    used
}

// Whether a tally has these counts of leaves at depths 0 to 12.
pub fn same_tally(tally: Tally, counts: &[u32]) -> bool
    requires { length counts.now ≡ 13 }
    ensures { (result ≡ same_tally tally.leaves counts.now) × (length tally.leaves ≡ 13) }
{
    tally.leaves[..] == counts[..]
}
