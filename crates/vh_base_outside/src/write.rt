ghost use Rattle.std.specs.Prelude.{◌≡◌, ◌≤◌, ℕ, take, OnOk, OnErr};
ghost use Rattle.vh_base.specs.Outside.{appended, AppendsFront};
ghost use Rattle.vh_base_outside.specs.Kept.{Tells};

use vh_base::{Sink, SinkFault};

/// Offers the piece whole, and after a write that took a part the rest, until all is taken.
pub fn write_whole<K: Sink>(out: &mut K, piece: &[u8]) -> Result<(), SinkFault>
    ensures ok { OnOk result (K.written out.new ≡ appended (K.written out.old) piece.now) }
    ensures err { OnErr result (AppendsFront (K.written out.old) (K.written out.new) piece.now) }
    ensures tells { Tells result (K.faults out.old) (K.faults out.new) }
{
    let mut done = 0;
    while done < piece.len() {
        done += out.write(&piece[done..])?;
    }
    Ok(())
}
