// Directory words: the page and the depth of one leaf in 32 bits (document 01, "Lent memory").
//
//     bits 0-15    page number plus one, or 0 for a leaf without a page
//     bits 16-19   depth of the leaf
//     bits 20-31   0
#![tactic(auto)]

ghost use Rattle.std.specs.Prelude.{◌≡◌, ◌<◌};
ghost use Rattle.directory_word.specs.Word.{word_of, depth_field, page_field, leaf_of};
ghost use Rattle.directory_word.specs.declared.Leaf.TheVariants.{Empty, Page};

// What a word says of its leaf: the depth of a leaf without a page, or page number and depth.
#[derive(Clone, Copy)]
pub enum Leaf {
    Empty(u32),
    Page(u32, u32),
}

// The word of a leaf without a page.
pub fn pack_empty(depth: u32) -> u32
    requires { depth < 16 }
    ensures { result ≡ word_of (Empty depth) }
{
    depth << 16
}

// The word of a leaf with a page.
pub fn pack_page(page: u32, depth: u32) -> u32
    requires { (page < 65535) × (depth < 16) }
    ensures { result ≡ word_of (Page page depth) }
{
    (depth << 16) | (page + 1)
}

// The depth that a word names: all of bits 16-31, so that no two words name one leaf. Where a bit of
// 20-31 is set it is 16 or more, which no leaf has.
pub fn depth_of(word: u32) -> u32
    ensures { (result ≡ depth_field word) × (result < 65536) }
{
    word >> 16
}

// The page number plus one that a word names, 0 for no page.
pub fn field_of(word: u32) -> u32
    ensures { (result ≡ page_field word) × (result < 65536) }
{
    word & 0xffff
}

// The leaf that a word names.
pub fn unpack(word: u32) -> Leaf
    ensures { result ≡ leaf_of word }
{
    let field = field_of(word);
    let depth = depth_of(word);
    if field == 0 {
        return Leaf::Empty(depth);
    }
    Leaf::Page(field - 1, depth)
}
