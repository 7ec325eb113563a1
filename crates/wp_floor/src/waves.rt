ghost use Rattle.std.specs.Prelude.{◌≡◌, ◌<◌, ◌+◌, ◌^◌, ◌++◌, ◌∷◌, ℕ, List, false, Some, [], length, replicate};
ghost use Rattle.std.specs.Prelude.{reverse, slice_get, IfOk, IfSome, IfNone};
ghost use Rattle.std.specs.List.{list_any};
ghost use Rattle.wp_floor.specs.declared.waves.NumberedWave.{NumberedWave as NumberedWaveData};
ghost use Rattle.wp_floor.specs.Floor.{state_in};
ghost use Rattle.wp_floor.specs.Waves.{AreSameWaves, AreWaves, IsFound, IsReturned, chain_count, chain_of, has_name};
ghost use Rattle.wp_floor.specs.Waves.{is_named, waves_of};

use crate::holding::Rooms;
use std::alloc::Global;
use std::marker::Model;
use std::snapshot::Snapshot;
use wp_allot::Want;
use wp_book::Room;
use wp_model::{Cell, Chain, Memory, Name, Names, WaveState};

/// What a wave has when it goes out: its orders, and the list of all that it holds.
#[derive(Drop)]
pub struct HeldOrders {
    pub orders: Names,
    pub room: Room,
}

/// What a submitted wave needs to go out: the names of its orders, which its sheet takes over, what they want, article
/// by article, and room for what is held for it.
#[derive(Drop)]
pub struct Needs {
    pub orders: Names,
    pub wants: Vec<Want>,
    pub rooms: Rooms,
}

/// How far a wave is, with what it needs for its next step: what it needs to go out once it is submitted, and its sheet
/// once it is allotted.
#[derive(Drop)]
pub enum Stage {
    Submitted(Needs),
    Allotted(HeldOrders),
    Released,
    Cancelled,
    Done,
}

impl Stage {
    /// How far the wave is.
    pub fn state(&self) -> WaveState
        ensures { result ≡ state_in self.now }
    {
        match self {
            Stage::Submitted(_) => WaveState::Submitted,
            Stage::Allotted(_) => WaveState::Allotted,
            Stage::Released => WaveState::Released,
            Stage::Cancelled => WaveState::Cancelled,
            Stage::Done => WaveState::Done,
        }
    }
}

/// The names of a wave's orders, which clauses alone see.
#[derive(Drop)]
pub struct CalledOrders {
    names: Snapshot<Names>,
}

impl Model for CalledOrders {
    ghost use Rattle.std.specs.Prelude.{ℕ, List};

    ghost Value = { List (List ℕ) };

    ghost view = { λ called. called.names.value };
}

impl CalledOrders {
    /// These names.
    pub fn of(names: &Names) -> CalledOrders
        ensures { result ≡ names.now }
    {
        CalledOrders {
            names: Snapshot::of(names),
        }
    }
}

/// A wave, with the numbers of its orders in the opening, none for one that isn't there, and with what it needs at its
/// stage. What its orders are called only clauses see.
#[derive(Drop)]
pub struct KeptWave {
    pub name: Name,
    pub orders: CalledOrders,
    pub numbers: Vec<Option<u32>>,
    pub stage: Stage,
    pub picked: bool,
}

/// A wave with its number in the order of submission.
#[derive(Drop)]
pub struct NumberedWave {
    pub number: u32,
    pub wave: KeptWave,
}

// Whether a wave has the name.
fn is_named(numbered: &NumberedWave, name: &Name) -> bool
    ensures { result ≡ is_named name.now numbered.now }
{
    numbered.wave.name == *name
}

const CHAINS: usize = 1024;

/// The waves, numbered from 0 in the order of their submission, each in the chain that its name gives. So a wave is
/// found by its name among few others, and one more takes no memory but its own.
#[derive(Drop)]
pub struct Waves {
    chains: Vec<Chain<NumberedWave>>,
    count: u32,
}

/// A wave that was taken out of the chain at a place: its number, and the waves that came after it there, the last
/// first.
#[derive(Drop)]
pub struct Found {
    pub place: usize,
    pub number: u32,
    pub wave: KeptWave,
    pub cell: Cell<NumberedWave>,
    pub after: Chain<NumberedWave>,
}

// The place of the chain that has the waves of a name.
fn chain_of(name: &Name) -> usize
    ensures place { result ≡ chain_of name.now }
    ensures within { result < chain_count }
{
    let mut place = 0;
    for byte in name.as_bytes() {
        place = (place * 31 + *byte as usize) % CHAINS;
    }
    place
}

// So many chains of nothing.
fn empty_chains(alloc: Global) -> Result<Vec<Chain<NumberedWave>>, Memory>
    ensures { IfOk result (λ chains. chains.items ≡ replicate chain_count []) }
{
    let mut chains = Vec::with_capacity(alloc, CHAINS)?;
    for _ in 0..CHAINS {
        chains.push(Chain::new())?;
    }
    Ok(chains)
}

// A wave of this name in a chain. None comes exactly where no wave of the chain has it.
fn find_in_chain<'a>(chain: &'a Chain<NumberedWave>, name: &Name) -> Option<&'a NumberedWave>
    ensures named { IfSome result (λ found. found.now.wave.name ≡ name.now) }
    ensures some { IfSome result (λ found. (below : List NumberedWaveData)
        × ((above : List NumberedWaveData)
        × (chain.now ≡ below ++ found.now ∷ above))) }
    ensures none { IfNone result (list_any (is_named name.now) chain.now ≡ false) }
{
    let mut at = chain;
    while let Some((wave, below)) = at.split_last() {
        if is_named(wave, name) {
            return Some(wave);
        }
        at = below;
    }
    None
}

impl Waves {
    /// No waves.
    pub fn open(alloc: Global) -> Result<Waves, Memory>
        ensures waves { IfOk result AreWaves }
        ensures none { IfOk result (λ waves. waves_of waves ≡ []) }
    {
        let chains = empty_chains(alloc)?;
        Ok(Waves { chains, count: 0 })
    }

    /// One more wave, the last.
    pub fn push(&mut self, wave: KeptWave, cell: Cell<NumberedWave>)
        requires waves { AreWaves self.old }
        requires few { length (waves_of self.old) + 1 < 2 ^ 32 }
        ensures waves { AreWaves self.new }
        ensures pushed { waves_of self.new ≡ waves_of self.old ++ wave ∷ [] }
    {
        let number = self.count;
        let chain = &mut self.chains[chain_of(&wave.name)];
        chain.push(NumberedWave { number, wave }, cell);
        self.count += 1;
    }

    /// The wave of this name. None comes exactly where no wave has it.
    pub fn find(&self, name: &Name) -> Option<&KeptWave>
        requires { AreWaves self.now }
        ensures some { IfSome result (λ kept. (kept.now.name ≡ name.now)
            × ((number : ℕ) × (slice_get (waves_of self.now) number ≡ Some kept.now))) }
        ensures none { IfNone result (list_any (has_name name.now) (waves_of self.now) ≡ false) }
    {
        match find_in_chain(&self.chains[chain_of(name)], name) {
            Some(found) => Some(&found.wave),
            None => None,
        }
    }

    /// Whether a wave has the name.
    pub fn has(&self, name: &Name) -> bool
        requires { AreWaves self.now }
        ensures { result ≡ list_any (has_name name.now) (waves_of self.now) }
    {
        match self.find(name) {
            Some(_) => true,
            None => false,
        }
    }
}

// Puts the waves of a chain back on top of another, the last first.
fn put_back_on(chain: &mut Chain<NumberedWave>, mut after: Chain<NumberedWave>)
    ensures { chain.new ≡ chain.old ++ reverse after }
{
    while let Some((wave, cell)) = after.pop() {
        chain.push(wave, cell);
    }
}

// Takes the waves off a chain down to the last of a name: that wave with its room, and those that came after it.
fn take_off(
    chain: &mut Chain<NumberedWave>,
    name: &Name,
    after: &mut Chain<NumberedWave>,
) -> Option<(NumberedWave, Cell<NumberedWave>)>
    requires { after.old ≡ [] }
    ensures some { IfSome result (λ found. chain.old ≡ chain.new ++ found.0 ∷ reverse after.new) }
    ensures named { IfSome result (λ found. found.0.wave.name ≡ name.now) }
    ensures none { IfNone result (chain.new ≡ []) }
    ensures all { IfNone result (chain.old ≡ reverse after.new) }
    ensures nobody { IfNone result (list_any (is_named name.now) chain.old ≡ false) }
{
    while let Some((wave, cell)) = chain.pop() {
        if is_named(&wave, name) {
            return Some((wave, cell));
        }
        after.push(wave, cell);
    }
    None
}

impl Waves {
    /// Takes the wave of this name out of its chain. None comes exactly where no wave has the name, and changes
    /// nothing.
    pub fn take_out(&mut self, name: &Name) -> Option<Found>
        requires { AreWaves self.old }
        ensures some { IfSome result (IsFound name.now self.old self.new) }
        ensures none { IfNone result (AreSameWaves self.old self.new) }
        ensures nobody { IfNone result (list_any (has_name name.now) (waves_of self.old) ≡ false) }
    {
        let place = chain_of(name);
        let chain = &mut self.chains[place];
        let mut after = Chain::new();
        match take_off(chain, name, &mut after) {
            Some((numbered, cell)) => {
                let NumberedWave { number, wave } = numbered;
                Some(Found {
                    place,
                    number,
                    wave,
                    cell,
                    after,
                })
            }
            None => {
                put_back_on(chain, after);
                None
            }
        }
    }

    /// Puts a wave back where it was taken out.
    pub fn put_back(&mut self, found: Found)
        requires { found.place < length self.old.chains.items }
        ensures { IsReturned self.old found self.new }
    {
        let chain = &mut self.chains[found.place];
        let numbered = NumberedWave {
            number: found.number,
            wave: found.wave,
        };
        chain.push(numbered, found.cell);
        put_back_on(chain, found.after);
    }
}
