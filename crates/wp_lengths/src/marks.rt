ghost use Rattle.std.specs.Prelude.{◌≡◌, ◌≢◌, ◌+◌, ◌*◌, ◌<◌, ◌==◌, ◌∷◌, ◌++◌, ℕ, [], OnErr, OnOk, Some, length};
ghost use Rattle.std.specs.Prelude.{slice_get};
ghost use Rattle.std.specs.Int.{bit_at};
ghost use Rattle.wp_lengths.specs.Marks.{HoldsMarks, mark_at};

use std::alloc::Global;
use std::marker::Model;
use wp_model::Memory;

/// A list of marks, each true or false, eight to a byte. Contracts see the list.
#[derive(Drop)]
pub struct Marks {
    bytes: Vec<u8>,
    count: u64,
}

impl Model for Marks {
    ghost use Rattle.std.specs.Prelude.{Bool, List};
    ghost use Rattle.wp_lengths.specs.Marks.{HoldsMarks, marks_below};

    ghost Value = { List Bool };

    ghost view = { λ m. marks_below m.bytes.items m.count };

    ghost invariant = { λ m. HoldsMarks m.bytes.items m.count };
}

// A byte with one digit changed.
fn with_bit(byte: u8, at: u32, mark: bool) -> u8
    requires { at < 8 }
    ensures here { (bit_at result at == 1) ≡ mark }
    ensures elsewhere { (k : ℕ) → k < 8 → k ≢ at → bit_at result k ≡ bit_at byte k }
{
    if mark {
        byte | (1 << at)
    } else {
        byte & !(1 << at)
    }
}

// Changes the mark at a place.
fn write_mark(bytes: &mut Vec<u8>, place: u64, mark: bool)
    requires { place < 8 * length bytes.old.items }
    ensures count { length bytes.new.items ≡ length bytes.old.items }
    ensures here { mark_at bytes.new.items place ≡ mark }
    ensures elsewhere { (other : ℕ) → other ≢ place
        → mark_at bytes.new.items other ≡ mark_at bytes.old.items other }
{
    let index = (place / 8) as usize;
    bytes[index] = with_bit(bytes[index], (place % 8) as u32, mark);
}

// Room for a mark behind those that there are.
fn make_room(bytes: &mut Vec<u8>, count: u64) -> Result<(), Memory>
    requires { HoldsMarks bytes.old.items count }
    ensures room { OnOk result (count < 8 * length bytes.new.items) }
    ensures no_more { OnOk result (8 * length bytes.new.items < count + 9) }
    ensures same { (k : ℕ) → k < count → mark_at bytes.new.items k ≡ mark_at bytes.old.items k }
    ensures err { OnErr result (bytes.new.items ≡ bytes.old.items) }
{
    if count % 8 == 0 {
        bytes.push(0)?;
    }
    Ok(())
}

impl Marks {
    /// No mark. It takes no memory.
    pub fn new(alloc: Global) -> Marks
        ensures { result ≡ [] }
    {
        Marks {
            bytes: Vec::new(alloc),
            count: 0,
        }
    }

    /// Adds a mark at the end. Where memory runs out the marks stay as they were.
    pub fn push(&mut self, mark: bool) -> Result<(), Memory>
        ensures ok { OnOk result (self.new ≡ self.old ++ mark ∷ []) }
        ensures err { OnErr result (self.new ≡ self.old) }
    {
        let Some(count) = self.count.checked_add(1) else {
            return Err(Memory);
        };
        make_room(&mut self.bytes, self.count)?;
        write_mark(&mut self.bytes, self.count, mark);
        self.count = count;
        Ok(())
    }

    /// How many marks there are.
    pub fn len(&self) -> u64
        ensures { result ≡ length self.now }
    {
        self.count
    }

    /// The mark at a place, counted from 0.
    pub fn at(&self, i: u64) -> bool
        requires { i < length self.now }
        ensures { slice_get self.now i ≡ Some result }
    {
        (self.bytes[(i / 8) as usize] >> (i % 8)) & 1 == 1
    }
}
