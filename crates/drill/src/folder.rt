//! A folder in memory with a stream and room for the file that it is packed into.
ghost use Rattle.std.specs.Prelude.{◌≡◌, ◌+◌, ◌*◌, ◌≤◌, Some, IfOk};
ghost use Rattle.outside.specs.Memory.{contents_of, mem_room};
ghost use Rattle.drill.specs.Drill.{drill_stream};
ghost use Rattle.frame_header.specs.Limits.{most_frame_length};

use crate::stream::write_stream;
use outside::MemFolder;
use std::alloc::{AllocError, Global};

/// The length in bytes of each frame of the stream: 128 kbit/s at 44,100 Hz, without padding.
pub const FRAME_LENGTH: u64 = 417;

/// The greatest length of a frame that is written, in bytes: one of 320 kbit/s at 32,000 Hz, or of 160
/// kbit/s at 8,000 Hz, padded.
const LONGEST: u64 = 1441;

/// A folder in memory that holds under the one name the stream of `count` frames that the number
/// `seed` gives, and has room under the other for as many frames, an Info frame and a lead-in, each
/// as long as a frame can be.
///
/// # Errors
/// If memory runs out.
pub fn stream_folder(
    alloc: Global,
    seed: u32,
    count: u32,
    stream: &str,
    packed: &str,
) -> Result<MemFolder, AllocError>
    ensures stream { IfOk result (λ folder. contents_of folder stream.now
        ≡ Some (drill_stream seed count)) }
    ensures room { IfOk result (λ folder. (count + 2) * most_frame_length ≤ mem_room folder
        packed.now) }
{
    let count_of = u64::from(count);
    let mut folder = MemFolder::new(alloc);
    folder.reserve(stream, FRAME_LENGTH * count_of)?;
    let Ok(()) = write_stream(alloc, seed, count, &mut folder, stream) else {
        return Err(AllocError);
    };
    folder.reserve(packed, LONGEST * (count_of + 2))?;
    Ok(folder)
}
