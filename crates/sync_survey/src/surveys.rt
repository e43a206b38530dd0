//! What a survey says of a file.
ghost use Rattle.std.specs.Prelude.{◌≡◌, ◌-◌};
ghost use Rattle.sync_survey.specs.Faults.{survey_view};

use crate::places::{Head, Piece, Start};
use crate::rows::Row;
use frame_header::Class;

/// What is known of a file without a fault. Offsets and lengths are in bytes.
#[derive(Drop)]
pub struct Survey {
    pub frames: Vec<Row>,
    pub blocks: Vec<Piece>,
    pub head: Option<Head>,
    pub start: Start,
    pub length: u64,
}

impl Survey {
    /// The frames of the stream in order, without the head.
    pub fn frames(&self) -> &[Row]
        ensures { result.now ≡ (survey_view self.now).frames }
    {
        &self.frames
    }

    /// The blocks in order of offset.
    pub fn blocks(&self) -> &[Piece]
        ensures { result.now ≡ (survey_view self.now).blocks }
    {
        &self.blocks
    }

    /// The head, if the first frame is one.
    pub fn head(&self) -> Option<Head>
        ensures { result ≡ (survey_view self.now).head }
    {
        self.head
    }

    /// The offset and the length of the junk before the first frame. Without junk, the offset is
    /// where the first frame or head begins, and the length is 0.
    pub fn junk(&self) -> (u64, u64)
        ensures { result ≡ (
          (survey_view self.now).junk,
          (survey_view self.now).first - (survey_view self.now).junk,
        ) }
    {
        let at = self.start.front_end;
        (at, self.start.first.offset.saturating_sub(at))
    }

    /// The offset of the first frame, which may be the head.
    pub fn first(&self) -> u64
        ensures { result ≡ (survey_view self.now).first }
    {
        self.start.first.offset
    }

    /// The class of all frames and of the head.
    pub fn class(&self) -> Class
        ensures { result ≡ (survey_view self.now).class }
    {
        self.start.first.header.class()
    }

    /// The length of the file.
    pub fn length(&self) -> u64
        ensures { result ≡ (survey_view self.now).length }
    {
        self.length
    }
}
