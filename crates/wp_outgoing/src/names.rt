//! The names of waves that go out: the group, a dot, and the least number that is free.
ghost use Rattle.std.specs.Prelude.{◌≡◌, ◌<◌, ◌≤◌, ◌++◌, ℕ, List, IfOk, IsTrue, length};
ghost use Rattle.std.specs.List.{All};
ghost use Rattle.wp_model.specs.Name.{is_name};
ghost use Rattle.wp_model.specs.Step.{is_among};
ghost use Rattle.wp_outgoing.specs.Names.{AreNamesOf, HasShortGroup, IsNameOf, group_of, numbered_name};
ghost use Rattle.wp_waves.specs.Filling.{waves_kept};
ghost use Rattle.wp_waves.specs.OpenFile.{most_group_bytes};

use std::alloc::Global;
use std::io::Write;
use wp_model::{Memory, Name};
use wp_waves::OpenOrder;

// Above the number of any wave: far fewer can be submitted.
const ABOVE_NUMBERS: u32 = 100_000;

/// The names of submitted waves, none of which a wave that goes out may have.
pub trait WaveNames {
    /// These names.
    ghost names: { Self → List (List ℕ) };

    /// Whether a submitted wave has a name.
    fn has(&self, name: &Name) -> bool
        ensures { result ≡ is_among (names self.now) name.now };
}

// The name of the wave of a group with a number.
fn numbered(alloc: Global, group: &Name, number: u32) -> Result<Name, Memory>
    requires group { length group.now ≤ most_group_bytes }
    requires number { number < 100000 }
    ensures name { IfOk result (λ name. name ≡ numbered_name group.now number) }
    ensures named { IfOk result (λ name. IsTrue (is_name name)) }
{
    let mut text = Vec::from_slice(alloc, group.as_bytes())?;
    write!(text, ".{number}").or(Err(Memory))?;
    Ok(Name::new(text.as_slice()).unwrap())
}

// Whether a name is among names.
fn is_before(before: &[Name], name: &Name) -> bool
    ensures { result ≡ is_among before.now name.now }
{
    before.contains(name)
}

// Whether a name is that of a submitted wave or of a wave before.
fn is_taken<N: WaveNames>(submitted: &N, before: &[Name], name: &Name) -> bool
    ensures { result ≡ is_among (N.names submitted.now ++ before.now) name.now }
{
    if submitted.has(name) {
        return true;
    }
    is_before(before, name)
}

// The name of the next wave of a group.
fn next_name<N: WaveNames>(
    alloc: Global,
    submitted: &N,
    before: &[Name],
    group: &Name,
) -> Result<Name, Memory>
    requires { length group.now ≤ most_group_bytes }
    ensures name { IfOk result (IsNameOf (N.names submitted.now ++ before.now) group.now) }
    ensures named { IfOk result (λ name. IsTrue (is_name name)) }
{
    for number in 1..ABOVE_NUMBERS {
        let name = numbered(alloc, group, number)?;
        if !is_taken(submitted, before, &name) {
            return Ok(name);
        }
    }
    Err(Memory)
}

// The group of a wave.
fn group_of(wave: &[OpenOrder]) -> Name
    requires { HasShortGroup wave.now }
    ensures group { result ≡ group_of wave.now }
    ensures short { length result ≤ most_group_bytes }
{
    wave[0].group
}

/// The names of waves that go out, one by one: of each its group, a dot, and the least number from 1 that no submitted
/// wave and no wave before it has. An `Err` comes from a want of memory, or where 99,999 numbers of a group are taken.
pub fn names_of<N: WaveNames>(
    alloc: Global,
    submitted: &N,
    waves: &[Vec<OpenOrder>],
) -> Result<Vec<Name>, Memory>
    requires { All HasShortGroup (waves_kept waves.now) }
    ensures names { IfOk result (λ names. AreNamesOf (N.names submitted.now) (waves_kept waves.now)
        names.items) }
    ensures count { IfOk result (λ names. length names.items ≡ length waves.now) }
    ensures named { IfOk result (λ names. All (λ name. IsTrue (is_name name)) names.items) }
{
    let mut names = Vec::new(alloc);
    for wave in waves {
        let group = group_of(wave.as_slice());
        let name = next_name(alloc, submitted, names.as_slice(), &group)?;
        names.push(name)?;
    }
    Ok(names)
}
