ghost use Rattle.std.specs.Prelude.{◌≡◌, ◌+◌, false, OnOk, OnErr, IsErrOf};
ghost use Rattle.wp_outside.specs.Outside.{Grows, TookPrefix, TookPart};

use crate::sink::{Sink, SinkFault};

/// Writes the whole text in as many pieces as the sink takes, and so in at most as many calls as the
/// text has bytes. After an `Err` the sink took a beginning of the text and not all of it. The sink's count rises by
/// one with `Failed`, and with nothing else. Nothing is written after a write that was answered with an error.
pub fn write_text<K: Sink>(out: &mut K, text: &[u8]) -> Result<(), SinkFault>
    ensures whole { OnOk result (Grows (K.told out.old).taken (K.told out.new).taken text.now) }
    ensures part { OnErr result (TookPart (K.told out.old).taken (K.told out.new).taken text.now) }
    ensures prefix { TookPrefix (K.told out.old).taken (K.told out.new).taken text.now }
    ensures counted { IsErrOf result SinkFault.Failed
        → (K.told out.new).faults ≡ (K.told out.old).faults + 1 }
    ensures uncounted { (IsErrOf result SinkFault.Failed → ⊥)
        → (K.told out.new).faults ≡ (K.told out.old).faults }
    ensures sound { OnOk result ((K.told out.new).stopped ≡ (K.told out.old).stopped) }
    ensures early { (K.told out.old).stopped ≡ false
        → (K.told out.new).late ≡ (K.told out.old).late }
{
    let mut done = 0;
    while done < text.len() {
        done += out.write(&text[done..])?;
    }
    Ok(())
}
