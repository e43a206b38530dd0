//! What is read of a damaged file.
ghost use Rattle.std.specs.Prelude.{◌≡◌};
ghost use Rattle.salvage.specs.DamagedFiles.{damaged_view};

use crate::gap::Gap;
use sync_survey::{Head, Piece, Row, Survey};

/// What is read of a damaged file. Offsets and lengths are in bytes.
#[derive(Drop)]
pub struct Damaged {
    pub(crate) survey: Survey,
    pub(crate) gaps: Vec<Gap>,
}

impl Damaged {
    /// What is read, as a survey: `lost` marks each frame that becomes an empty one, and the junk
    /// is the gap before the first frame.
    pub fn survey(&self) -> &Survey
        ensures { result.now ≡ self.now.survey }
    {
        &self.survey
    }

    /// The frames in order, without the head. `lost` marks each one that becomes an empty frame.
    pub fn frames(&self) -> &[Row]
        ensures { result.now ≡ (damaged_view self.now).survey.frames }
    {
        self.survey.frames()
    }

    /// The gaps in order of offset.
    pub fn gaps(&self) -> &[Gap]
        ensures { result.now ≡ (damaged_view self.now).gaps }
    {
        &self.gaps
    }

    /// The blocks in order of offset, without those in gaps.
    pub fn blocks(&self) -> &[Piece]
        ensures { result.now ≡ (damaged_view self.now).survey.blocks }
    {
        self.survey.blocks()
    }

    /// The head, if the first frame is one.
    pub fn head(&self) -> Option<Head>
        ensures { result ≡ (damaged_view self.now).survey.head }
    {
        self.survey.head()
    }
}
