// Refused calls (document 01, "Refused calls"; document 02, requests 1, 2, 5, 6 and 7).
ghost use Rattle.std.specs.Prelude.{◌≡◌};
ghost use Rattle.shape.specs.Refusal.{attribute_beside, depth_beside, refusal_number};

// Why a call is refused, by the number of the table's row; of two rows with the value that goes with it.
#[derive(Clone, Copy)]
pub enum Refusal {
    // 1: the attribute count is outside 1 to 4
    Shape,
    // 2: too few words or bytes are lent
    Memory,
    // 3: a value or an index of 2^w_j or more, an address of 2^W or more, an unused one that is not 0
    Value,
    // 4: the key is stored already
    Stored,
    // 5: the key is absent; the depth of the leaf in which it falls
    Absent(u32),
    // 6: b stored keys share their first L split bits with the new one
    Depth,
    // 7: the new set has more than P non-empty leaves
    Pages,
    // 8: an attribute is named that the shape does not have
    Attribute,
    // 9: the store was met as unsound
    Unsound,
    // 10: an interval's low end is above its high end
    Interval,
    // 11: the payload is 0
    Payload,
    // 12: the bytes are no whole file
    File,
    // 13: a file has stray bytes in its shape, a value outside its bounds, or records that do not rise
    Content,
    // 14: a width is outside 1 to 16; the lowest attribute that has such a one
    Width(u32),
    // 15: the page capacity is outside 1 to 16
    Capacity,
}

impl Refusal {
    // Its number.
    pub fn number(self) -> u32
        ensures { result ≡ refusal_number self }
    {
        match self {
            Refusal::Shape => 1,
            Refusal::Memory => 2,
            Refusal::Value => 3,
            Refusal::Stored => 4,
            Refusal::Absent(_) => 5,
            Refusal::Depth => 6,
            Refusal::Pages => 7,
            Refusal::Attribute => 8,
            Refusal::Unsound => 9,
            Refusal::Interval => 10,
            Refusal::Payload => 11,
            Refusal::File => 12,
            Refusal::Content => 13,
            Refusal::Width(_) => 14,
            Refusal::Capacity => 15,
        }
    }
    // The depth beside 5; 0 beside any other number.
    pub fn depth(self) -> u32
        ensures { result ≡ depth_beside self }
    {
        match self {
            Refusal::Absent(depth) => depth,
            _ => 0,
        }
    }

    // The attribute beside 14; 0 beside any other number.
    pub fn attribute(self) -> u32
        ensures { result ≡ attribute_beside self }
    {
        match self {
            Refusal::Width(attribute) => attribute,
            _ => 0,
        }
    }
}
