ghost use Rattle.std.specs.Prelude.{◌≡◌, ℕ, ◌<◌, ◌≤◌, List, length, OnOk, IfOk, OnErr};
ghost use Rattle.std.specs.declared.option.Option.{Option};
ghost use Rattle.std.specs.Io.KnownBytes.{Appends, WriteAppends};
ghost use Rattle.mdg_port.specs.Prefix.{AppendsProperPrefix};
ghost use Rattle.mdg_port.specs.Causes.{HasCause};
ghost use Rattle.mdg_port.specs.declared.sink.SinkFailed.{SinkFailed};

use thiserror::Error;

/// The sink took nothing, and its count of faults shows that.
#[derive(Clone, Copy, Debug, PartialEq, Eq, Error)]
#[error("the write failed")]
pub struct SinkFailed;

/// What text is written to. A put may take only a prefix of what it is given.
pub trait Sink {
    /// What was written, where the sink tells that.
    ghost written: { Self → Option (List ℕ) };

    /// How often a write failed. It never falls, and stands still at 2^64 - 1.
    ghost faults: { Self → ℕ };

    /// Takes a prefix of the bytes, at least one of them, and answers how many it took.
    fn put(&mut self, bytes: &[u8]) -> Result<usize, SinkFailed>
        requires { 0 < length bytes.now }
        ensures some { IfOk result (λ n. 0 < n) }
        ensures bound { IfOk result (λ n. n ≤ length bytes.now) }
        ensures bytes { WriteAppends (written self.old) (written self.new) result bytes.now }
        ensures cause { HasCause (faults self.old) (faults self.new) result (record {}) };
}

/// Writes all the bytes, by as many puts as that takes. After a failure a proper prefix of them is written.
/// For no bytes nothing is put.
pub fn write_whole<S: Sink>(out: &mut S, bytes: &[u8]) -> Result<(), SinkFailed>
    ensures all { OnOk result (Appends (S.written out.old) (S.written out.new) bytes.now) }
    ensures prefix { OnErr result (AppendsProperPrefix (S.written out.old) (S.written out.new) bytes.now) }
    ensures cause { HasCause (S.faults out.old) (S.faults out.new) result (record {}) }
{
    let mut done = 0;
    while done < bytes.len() {
        let (_, rest) = bytes.split_at(done);
        done += out.put(rest)?;
    }
    Ok(())
}
