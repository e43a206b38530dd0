//! A stream, written to a file of a folder.
ghost use Rattle.std.specs.Prelude.{◌≡◌, ◌⊎◌, OnOk, IsErrOf};
ghost use Rattle.outside.specs.Files.{with_empty_file, with_appended_bytes, FailsToCreate};
ghost use Rattle.outside.specs.BufferOutput.{AppendedPrefix};
ghost use Rattle.outside.specs.Counts.{OnlyWrites};
ghost use Rattle.frame_writer.specs.Writing.{WriteFailed};
ghost use Rattle.drill.specs.Drill.{drill_stream};

use crate::fault::StreamFault;
use crate::making::DrillWriter;
use outside::Folder;
use std::alloc::Global;

/// Makes the name hold the stream of `count` frames that the number `seed` gives, 417 bytes for
/// each. All memory is taken before the file is created, and doesn't grow with the stream.
///
/// # Errors
/// `Memory` if memory runs out; then the files stay. `Write` if `create` or a write failed; then
/// they stay, or the name holds a prefix of the stream.
pub fn write_stream<D: Folder>(
    alloc: Global,
    seed: u32,
    count: u32,
    folder: &mut D,
    name: &str,
) -> Result<(), StreamFault>
    ensures written { OnOk result ((D.seen folder.new).files ≡
        with_appended_bytes (with_empty_file (D.seen folder.old).files name.now)
        name.now (drill_stream seed count)) }
    ensures part { IsErrOf result StreamFault.Write
        → FailsToCreate name.now (D.seen folder.old).files (D.seen folder.new).files
        ⊎ AppendedPrefix name.now (drill_stream seed count)
        (with_empty_file (D.seen folder.old).files name.now) (D.seen folder.new).files }
    ensures failed { IsErrOf result StreamFault.Write →
        WriteFailed name.now (D.seen folder.old).counts (D.seen folder.new).counts }
    ensures kept { IsErrOf result StreamFault.Memory → (D.seen folder.new).files
        ≡ (D.seen folder.old).files }
    ensures none { IsErrOf result StreamFault.Memory → (D.seen folder.new).counts
        ≡ (D.seen folder.old).counts }
    ensures done { OnOk result ((D.seen folder.new).counts ≡ (D.seen folder.old).counts) }
    ensures counts { OnlyWrites (D.seen folder.old).counts (D.seen folder.new).counts }
{
    let Ok(mut making) = DrillWriter::new(alloc, seed) else {
        return Err(StreamFault::Memory);
    };
    let Ok(()) = folder.create(name) else {
        return Err(StreamFault::Write);
    };
    match making.write(count, folder, name) {
        Ok(()) => Ok(()),
        Err(_) => Err(StreamFault::Write),
    }
}
