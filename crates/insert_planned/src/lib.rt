// What an insert finds and what its plan tells, as definitions, and their laws on a sound store.
#![tactic(auto)]

use insert_cut::Cut;

// What is found of a key's leaf, where an insert is not refused: a page with room, the leaf's depth,
// the place of the key and the number of records that the page has; no page, the leaf's depth; a
// full page, how the leaf is divided and where the page is cut.
#[derive(Clone, Copy)]
pub enum Found {
    Room(u32, u32, usize, usize),
    Null(u32),
    Full(Split, Cut),
}

// A full leaf and the split step at which it is divided: its page and depth, the place that a new
// key has on the page, the step's place among the pairs and its number.
#[derive(Clone, Copy)]
pub struct Split {
    pub page: u32,
    pub depth: u32,
    pub behind: usize,
    pub pair: u64,
    pub step: u64,
}
