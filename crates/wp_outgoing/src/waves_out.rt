//! Waves that go out, each with its name and what its start costs.
ghost use Rattle.std.specs.Prelude.{◌≡◌, IfOk, length};
ghost use Rattle.wp_outgoing.specs.WavesOut.{AreOut};
ghost use Rattle.wp_waves.specs.Filling.{waves_kept};

use crate::lines::WaveOut;
use std::alloc::Global;
use wp_model::{Memory, Name};
use wp_waves::OpenOrder;

// A wave that goes out.
fn wave_out(alloc: Global, name: Name, orders: &[OpenOrder], start: u64) -> Result<WaveOut, Memory>
    ensures name { IfOk result (λ wave. wave.name ≡ name) }
    ensures orders { IfOk result (λ wave. wave.orders.items ≡ orders.now) }
    ensures start { IfOk result (λ wave. wave.start ≡ start) }
{
    let orders = Vec::from_slice(alloc, orders)?;
    Ok(WaveOut {
        name,
        orders,
        start,
    })
}

/// Waves that go out, of which these are the names and what their starts cost, one by one. `Memory` comes from a
/// want of memory alone.
pub fn with_names(
    alloc: Global,
    names: &[Name],
    waves: &[Vec<OpenOrder>],
    starts: &[u64],
) -> Result<Vec<WaveOut>, Memory>
    requires names { length names.now ≡ length waves.now }
    requires starts { length starts.now ≡ length waves.now }
    ensures { IfOk result (λ out. AreOut names.now (waves_kept waves.now) starts.now out.items) }
{
    let mut out = Vec::new(alloc);
    for place in 0..waves.len() {
        let orders = waves[place].as_slice();
        let wave = wave_out(alloc, names[place], orders, starts[place])?;
        out.push(wave)?;
    }
    Ok(out)
}
