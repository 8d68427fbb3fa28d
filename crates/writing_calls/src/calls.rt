//! Calls that write bytes, and one that writers ask, in functions that promise these calls' clauses: wrong bodies of this module are rejected.

ghost use Rattle.archive_check.specs.WriterState.{KeepsKeys};
ghost use Rattle.archive_num.specs.Offsets.{IsTooFar, distance};
ghost use Rattle.archive_num.specs.OwnerBytes.{owner_bytes};
ghost use Rattle.archive_num.specs.StringBytes.{OutOfLineWritten};
ghost use Rattle.archive_tuple.specs.Entries.{entries_ascend};
ghost use Rattle.archive_write.specs.Writes.{ExplainsWrite, SpendsRoom};
ghost use Rattle.archive_write.specs.Written.{IsBeginning};
ghost use Rattle.std.specs.Int.{w32};
ghost use Rattle.std.specs.Prelude.{FitsSigned, IfErr, IsErrOf, IsTrue, OnErr, OnOk, length, true, ◌++◌, ◌<◌, ◌≡◌, ◌≤◌};

use archive_check::format::error::Error;
use archive_num::FixedUsize;
use archive_num::owners::emplace_long_owner;
use archive_num::repr::try_emplace_out_of_line;
use archive_tuple::entries::is_ascending;
use archive_write::ser::{Writer, WriterExt};

/// Writes over the eight bytes of an owner. Requires and fails as `emplace_long_owner` does.
pub fn write_owner(
    target: usize,
    count: FixedUsize,
    pos: usize,
    bytes: &mut [u8],
) -> Result<(), Error>
    requires { length bytes.old ≡ 8 }
    ensures written { OnOk result (bytes.new ≡ owner_bytes true (distance pos target) count) }
    ensures fits { OnOk result (FitsSigned w32 (distance pos target)) }
    ensures refused { IfErr result (λ e. (bytes.new ≡ bytes.old)
        × IsTooFar e (distance pos target)) }
    ensures same_length { length bytes.new ≡ length bytes.old }
{
    emplace_long_owner(target, count, pos, bytes)
}

/// Writes over the eight bytes of a string. Requires and fails as `try_emplace_out_of_line` does.
pub fn write_string(value: &str, pos: usize, target: usize, out: &mut [u8]) -> Result<(), Error>
    requires long { 8 < length value.now }
    requires held { length value.now ≤ 1073741823 }
    requires sized { length out.old ≡ 8 }
    ensures { OutOfLineWritten (length value.now) (distance pos target) out.old out.new result }
{
    try_emplace_out_of_line(value, pos, target, out)
}

/// Whether the keys of entries ascend strictly.
pub fn are_ascending<K: Ord, V>(entries: &[(K, V)]) -> bool
    ensures { result ≡ entries_ascend K.cmp entries.now }
{
    is_ascending(entries)
}

/// Writes bytes, with room made at once if they are long. Fails as `write_long` does.
pub fn write_at_length<W: Writer>(writer: &mut W, bytes: &[u8]) -> Result<(), Error>
    ensures written { OnOk result ((W.state writer.new).bytes ≡ (W.state writer.old).bytes
        ++ bytes.now) }
    ensures kept { OnErr result (IsBeginning (W.state writer.old).bytes
        (W.state writer.new).bytes) }
    ensures room { SpendsRoom W.state writer }
    ensures refusal { IfErr result (ExplainsWrite W.state writer W.position (length bytes.now)) }
    ensures device { (W.state writer.old).failures ≤ (W.state writer.new).failures }
    ensures keys { KeepsKeys (W.state writer.old).states (W.state writer.new).states }
    ensures memory { IsErrOf result Error.OutOfMemory → IsTrue W.takes_memory }
{
    writer.write_long(bytes)
}
