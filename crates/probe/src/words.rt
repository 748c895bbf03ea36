// The steps on directory words.
ghost use Rattle.std.specs.Prelude.{◌≡◌, ◌<◌};
ghost use Rattle.directory_word.specs.Word.{word_of, leaf_of};
ghost use Rattle.directory_word.specs.declared.Leaf.TheVariants.{Empty, Page};
ghost use Rattle.probe.specs.Fields.{leaf_fields};

use directory_word::{Leaf, pack_empty, pack_page, unpack};

// A leaf as numbers: 1 and the page, or 0 and 0 without one; and the depth.
#[repr(C)]
#[derive(Clone, Copy)]
pub struct LeafFields {
    pub paged: u32,
    pub page: u32,
    pub depth: u32,
}

// The word of a leaf without a page.
#[unsafe(no_mangle)]
pub extern "C" fn probe_pack_empty(depth: u32) -> u32
    requires { depth < 16 }
    ensures { result ≡ word_of (Empty depth) }
{
    pack_empty(depth)
}

// The word of a leaf with a page.
#[unsafe(no_mangle)]
pub extern "C" fn probe_pack_page(page: u32, depth: u32) -> u32
    requires { (page < 65535) × (depth < 16) }
    ensures { result ≡ word_of (Page page depth) }
{
    pack_page(page, depth)
}

// The leaf that a word names.
#[unsafe(no_mangle)]
pub extern "C" fn probe_unpack(word: u32) -> LeafFields
    ensures { result ≡ leaf_fields (leaf_of word) }
{
    let leaf = unpack(word);
    match leaf {
        Leaf::Empty(depth) => LeafFields {
            paged: 0,
            page: 0,
            depth,
        },
        Leaf::Page(page, depth) => LeafFields {
            paged: 1,
            page,
            depth,
        },
    }
}
