//! Slots and cells in words: reads that are total, and writes that refuse where the words end.

ghost use Rattle.std.specs.Prelude.{◌≡◌, ℕ, ◌+◌, ◌*◌, ◌<◌, ◌≤◌, length, MatchResult, slice_index};
ghost use Rattle.store.specs.Slots.{cell_at, place_of, slot_at, Wrote, WroteCell};

/// The first kind of a node; the kinds below are those of leaves. Kinds are numbers, since any may stand in lent words.
pub const FIRST_NODE: u32 = 16;

/// How many values a word has: a slot's number is two words, the low one first.
const RADIX: u64 = 4294967296;

/// Three words: a leaf's own, or a node's, whose last two are the number of its cell.
#[derive(Clone, Copy, Debug, PartialEq, Eq)]
pub struct Slot {
    pub kind: u32,
    pub low: u32,
    pub high: u32,
}

/// Two slots.
#[derive(Clone, Copy, Debug, PartialEq, Eq)]
pub struct Cell {
    pub left: Slot,
    pub right: Slot,
}

/// The number of a cell.
#[derive(Clone, Copy, Debug, PartialEq, Eq)]
pub struct Place(pub usize);

/// There is no room left.
#[derive(Clone, Copy, Debug, PartialEq, Eq)]
pub struct Full;

impl Slot {
    /// What stands past the end of the words.
    pub const ZERO: Slot = Slot {
        kind: 0,
        low: 0,
        high: 0,
    };

    /// The slot of that kind with that number.
    pub fn numbered(kind: u32, number: u64) -> Slot
        ensures kind { result.kind ≡ kind }
        ensures number { place_of result ≡ number }
    {
        Slot {
            kind,
            low: (number % RADIX) as u32,
            high: (number / RADIX) as u32,
        }
    }

    /// The number that the slot has in its last two words.
    pub fn number(self) -> u64
        ensures { result ≡ place_of self }
    {
        u64::from(self.low) + RADIX * u64::from(self.high)
    }

    /// The cell that a node's slot refers to.
    pub fn place(self) -> Place
        ensures { result.0 ≡ place_of self }
    {
        Place(self.number() as usize)
    }
}

impl Place {
    /// The slot of a node of that kind that refers to this cell.
    pub fn slot(self, kind: u32) -> Slot
        ensures kind { result.kind ≡ kind }
        ensures place { place_of result ≡ self.0 }
    {
        Slot::numbered(kind, self.0 as u64)
    }
}

/// The slot of that number, or zeros where the words have ended.
pub fn read_slot(words: &[u32], j: usize) -> Slot
    ensures { result ≡ slot_at words.now j }
{
    let whole = words.len() / 3;
    if j < whole {
        return load_slot(words, j);
    }
    if j > whole {
        return Slot::ZERO;
    }
    Slot {
        kind: word(words, 3 * j),
        low: word(words, 3 * j + 1),
        high: word(words, 3 * j + 2),
    }
}

/// Writes the slot of that number, unless the words end before.
pub fn write_slot(words: &mut [u32], j: usize, slot: Slot) -> Result<(), Full>
    ensures { MatchResult result
        (λ _. (3 * j + 3 ≤ length words.old) × Wrote words.old words.new j slot)
        (λ _. (length words.old < 3 * j + 3) × (words.new ≡ words.old)) }
{
    if j >= words.len() / 3 {
        return Err(Full);
    }
    set_slot(words, j, slot);
    Ok(())
}

/// The two slots of a cell, or zeros where the words have ended.
pub fn read_cell(words: &[u32], place: Place) -> Cell
    ensures { result ≡ cell_at words.now place.0 }
{
    let Place(c) = place;
    if c < words.len() / 6 {
        return Cell {
            left: load_slot(words, 2 * c),
            right: load_slot(words, 2 * c + 1),
        };
    }
    if c > words.len() / 6 {
        return Cell {
            left: Slot::ZERO,
            right: Slot::ZERO,
        };
    }
    Cell {
        left: read_slot(words, 2 * c),
        right: read_slot(words, 2 * c + 1),
    }
}

/// Writes both slots of a cell, unless the words end before.
pub fn write_cell(words: &mut [u32], place: Place, cell: Cell) -> Result<(), Full>
    ensures { MatchResult result
        (λ _. (6 * (place.0 + 1) ≤ length words.old)
        × WroteCell words.old words.new place.0 cell)
        (λ _. (length words.old < 6 * (place.0 + 1)) × (words.new ≡ words.old)) }
{
    let Place(c) = place;
    if c >= words.len() / 6 {
        return Err(Full);
    }
    set_slot(words, 2 * c, cell.left);
    set_slot(words, 2 * c + 1, cell.right);
    Ok(())
}

/// The slot of that number, whose words are all there.
pub fn load_slot(words: &[u32], j: usize) -> Slot
    requires { 3 * j + 3 ≤ length words.now }
    ensures { result ≡ slot_at words.now j }
{
    Slot {
        kind: words[3 * j],
        low: words[3 * j + 1],
        high: words[3 * j + 2],
    }
}

/// Writes the slot of that number, whose words are all there.
pub fn set_slot(words: &mut [u32], j: usize, slot: Slot)
    requires { 3 * j + 3 ≤ length words.old }
    ensures { Wrote words.old words.new j slot }
{
    words[3 * j] = slot.kind;
    words[3 * j + 1] = slot.low;
    words[3 * j + 2] = slot.high;
}

/// The word at a place, and 0 past the end.
fn word(words: &[u32], i: usize) -> u32
    ensures { result ≡ slice_index words.now i }
{
    words.get(i).copied().unwrap_or(0)
}
