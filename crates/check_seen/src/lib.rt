// What the walk of the call check tells of a word, of a page and of a region's two sides (document
// 01, "Calls").
#![tactic(auto)]

ghost use Rattle.std.specs.Prelude.{◌≡◌, max, length};
ghost use Rattle.shape.specs.Shape.{width_list};
ghost use Rattle.directory_word.specs.Word.{depth_field};
ghost use Rattle.check_page.specs.PageTest.{TestedPage};
ghost use Rattle.check_seen.specs.Seen.{page_seen, joined_seen, JoinFits};

use check_page::page_passes;
use page::count;
use shape::Widths;

// What a region that passes has: its records, its leaves with a page, and how far below it its
// deepest leaf is.
#[derive(Clone, Copy)]
pub struct Seen {
    pub records: u32,
    pub pages: u32,
    pub depth: u32,
}

// The upper half of a word: a depth that a sound store has has no more than four bits.
pub fn depth_of(word: u32) -> u64
    ensures { result ≡ depth_field word }
{
    (word >> 16) as u64
}

// What a leaf with a page has, where a shape adds a bias to its values: none if the page does not
// pass.
pub fn page_seen(
    widths: Widths,
    capacity: u32,
    bias: u64,
    page: &[u8],
    x: u64,
    string: u64,
) -> Option<Seen>
    requires { TestedPage (width_list widths) capacity x (length page.now) }
    ensures { result ≡ page_seen (width_list widths) capacity x string bias page.now }
{
    if !page_passes(widths, capacity, bias, page, x, string) {
        return None;
    }
    Some(Seen {
        records: count(page) as u32,
        pages: 1,
        depth: 0,
    })
}

// What a divided region has, from its sides: none if it has no more than b records.
pub fn joined(capacity: u32, lower: Seen, upper: Seen) -> Option<Seen>
    requires { JoinFits lower upper }
    ensures { result ≡ joined_seen capacity lower upper }
{
    let records = lower.records + upper.records;
    if records <= capacity {
        return None;
    }
    Some(Seen {
        records,
        pages: lower.pages + upper.pages,
        depth: 1 + lower.depth.max(upper.depth),
    })
}
