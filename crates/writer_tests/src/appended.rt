//! Frames appended to the file `o`.

use frame_header::Header;
use frame_writer::{Frame, FrameQueue};
use outside::{Failed, Folder, WriteBuffer};
use reservoir::Payload;
use side_info::{FrameFront, Side};
use std::alloc::{AllocError, Global};
use std::process::Abort;

/// Side information whose fields are 0, except main_data_begin and the bits of its first granule and channel.
pub fn side_of(begin: u16, bits: u16) -> Side {
    let mut side = Side::empty().with_begin(begin);
    side.granules[0][0].part2_3_length = bits;
    side
}

/// Side information with so many bits in each granule and channel, and all gains 100.
pub fn side_of_four(begin: u16, bits: u16) -> Side {
    let mut side = Side::empty().with_begin(begin);
    for granule in side.granules.as_flattened_mut() {
        granule.part2_3_length = bits;
        granule.global_gain = 100;
    }
    side
}

/// What appends frames: the frames that wait, and the buffer before the file.
#[derive(Drop)]
pub struct Appending {
    pub queue: FrameQueue,
    pub unsent: WriteBuffer,
}

impl Appending {
    /// Appends frames with the class of this header.
    pub fn new(alloc: Global, header: &Header) -> Result<Appending, AllocError> {
        Ok(Appending {
            queue: FrameQueue::new(alloc, header.class())?,
            unsent: WriteBuffer::new(alloc)?,
        })
    }

    pub fn append<D: Folder>(
        &mut self,
        rt: &impl Abort,
        header: &Header,
        side: &Side,
        bytes: &[u8],
        folder: &mut D,
    ) -> Result<(), Failed> {
        let queue = &mut self.queue;
        assert!(rt; queue.class().is_same(header.class()) && side.fits(header.class()));
        assert!(rt; queue.is_ready() && u32::from(side.main_data_begin) <= queue.reach());
        assert!(rt; bytes.len() <= 2048);
        let area = header.area();
        assert!(rt; bytes.len() <= usize::from(side.main_data_begin) + area as usize);
        let front = FrameFront::new(header, side);
        let frame = Frame::with_area(&front, area, Payload::whole(bytes));
        folder.find("o")?;
        queue.frame(&frame, folder, "o", &mut self.unsent)
    }

    /// Appends the end of the frames.
    pub fn finish<D: Folder>(&mut self, folder: &mut D) -> Result<(), Failed> {
        folder.find("o")?;
        self.queue.finish(folder, "o", &mut self.unsent)?;
        folder.find("o")?;
        self.unsent.finish(folder, "o")
    }
}
