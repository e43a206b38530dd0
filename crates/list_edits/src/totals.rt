//! Totals over the frames of a file, from one walk over them.
ghost use Rattle.std.specs.Prelude.{◌≡◌, ◌+◌, ◌*◌, ◌^◌, ◌<◌, ◌≤◌, length};
ghost use Rattle.frame_header.specs.Tables.{class_of};
ghost use Rattle.sync_survey.specs.MainData.{head_area};
ghost use Rattle.sync_survey.specs.Faults.{survey_view};
ghost use Rattle.sync_survey.specs.Survey.{IsSurveyLaidOut};
ghost use Rattle.commands.specs.SingleOutput.{most_frames};
ghost use Rattle.moved_gains.specs.Moving.{AreFramesOfClass};
ghost use Rattle.list_edits.specs.Totals.{file_areas, head_length, stream_length, row_rate, with_header, with_side, no_sides, no_headers, AreTotals};

use frame_header::{Class, Version};
use moved_gains::{Gains, gains_in, joined};
use sync_survey::{Head, Row, Survey};

/// What the headers of some frames give: the least and the greatest bit rate in kbit/s, and how
/// many bytes the areas and the frames have.
#[derive(Clone, Copy)]
pub(crate) struct HeaderTotals {
    pub(crate) areas: u64,
    pub(crate) lengths: u64,
    pub(crate) least_rate: u32,
    pub(crate) greatest_rate: u32,
}

/// What the side information of some frames gives: how many frames are lost, how many bytes of main
/// data the others have, and the least and the greatest gain of each channel that move.
#[derive(Clone, Copy)]
pub(crate) struct SideTotals {
    pub(crate) lost: u64,
    pub(crate) main_data: u64,
    pub(crate) left: Option<Gains>,
    pub(crate) right: Option<Gains>,
}

/// The totals of some frames.
#[derive(Clone, Copy)]
pub(crate) struct Totals {
    pub(crate) headers: HeaderTotals,
    pub(crate) sides: SideTotals,
}

/// The bit rate of a frame of this class, in kbit/s.
#[inline(always)]
fn bit_rate(class: Class, row: &Row) -> u32
    requires { class_of row.now.header ≡ class }
    ensures { result ≡ row_rate row.now }
{
    class.rate(row.front().slot())
}

impl HeaderTotals {
    /// The totals of no frame, where the first one has this bit rate.
    fn before(rate: u32) -> HeaderTotals
        ensures { result ≡ no_headers rate }
    {
        HeaderTotals {
            areas: 0,
            lengths: 0,
            least_rate: rate,
            greatest_rate: rate,
        }
    }

    /// Adds a frame of this class.
    #[inline(always)]
    fn add(&mut self, class: Class, row: &Row)
        requires class { class_of row.now.header ≡ class }
        requires areas { self.old.areas ≤ 2 ^ 62 }
        requires lengths { self.old.lengths ≤ 2 ^ 62 }
        ensures with { self.new ≡ with_header row.now.header self.old }
        ensures areas { self.new.areas ≤ self.old.areas + 1441 }
        ensures lengths { self.new.lengths ≤ self.old.lengths + 1441 }
    {
        let front = row.front();
        let slot = front.slot();
        let rate = bit_rate(class, row);
        self.areas += u64::from(class.area_of(slot, front.protected()));
        self.lengths += u64::from(class.length_of(slot));
        self.least_rate = self.least_rate.min(rate);
        self.greatest_rate = self.greatest_rate.max(rate);
    }
}

impl SideTotals {
    /// The totals of no frame.
    fn none() -> SideTotals
        ensures { result ≡ no_sides }
    {
        SideTotals {
            lost: 0,
            main_data: 0,
            left: None,
            right: None,
        }
    }

    /// Adds a frame of this class.
    #[inline(always)]
    fn add(&mut self, class: Class, row: &Row)
        requires class { class_of row.now.header ≡ class }
        requires lost { self.old.lost ≤ 2 ^ 62 }
        requires main_data { self.old.main_data ≤ 2 ^ 62 }
        ensures with { self.new ≡ with_side row.now self.old }
        ensures lost { self.new.lost ≤ self.old.lost + 1 }
        ensures main_data { self.new.main_data ≤ self.old.main_data + 2 ^ 32 }
    {
        if row.lost() {
            self.lost += 1;
            return;
        }
        let side = row.front().side_in(class);
        self.main_data += u64::from(side.payload_bytes());
        self.left = joined(self.left, gains_in(&side, 0));
        self.right = joined(self.right, gains_in(&side, 1));
    }
}

/// The totals of frames of this class.
#[inline(always)]
fn totals_of(class: Class, rows: &[Row]) -> Totals
    requires classed { AreFramesOfClass class rows.now }
    requires some { 0 < length rows.now }
    requires few { length rows.now ≤ most_frames }
    ensures { AreTotals rows.now result }
{
    let mut headers = HeaderTotals::before(bit_rate(class, &rows[0]));
    let mut sides = SideTotals::none();
    for row in rows {
        headers.add(class, row);
        sides.add(class, row);
    }
    Totals { headers, sides }
}

/// The totals of the frames of a surveyed file. In MPEG-1 with two channels, the most frequent class, the compiler knows the
/// places of all fields. It takes no memory.
pub(crate) fn totals_in(survey: &Survey) -> Totals
    requires laid { IsSurveyLaidOut (survey_view survey.now) }
    requires few { length (survey_view survey.now).frames ≤ most_frames }
    ensures { AreTotals (survey_view survey.now).frames result }
{
    let class = survey.class();
    let rows = survey.frames();
    match (class.version, class.channels) {
        (Version::One, 2) => totals_of(class.known_stereo(), rows),
        _ => totals_of(class, rows),
    }
}

/// How many bytes the head's area has, if there is a head.
fn head_area(head: Option<Head>) -> u64
    ensures area { result ≡ head_area head }
    ensures few { result ≤ 1441 }
{
    match head {
        Some(head) => u64::from(head.header.area()),
        None => 0,
    }
}

/// How many bytes the areas of the head and of all frames have, given the totals of the frames.
pub(crate) fn areas_in(survey: &Survey, totals: &Totals) -> u64
    requires totals { AreTotals (survey_view survey.now).frames totals.now }
    requires few { length (survey_view survey.now).frames ≤ most_frames }
    ensures { result ≡ file_areas (survey_view survey.now) }
{
    head_area(survey.head()) + totals.headers.areas
}

/// How many bytes the head has, if there is one.
fn head_length(head: Option<Head>) -> u64
    ensures length { result ≡ head_length head }
    ensures few { result ≤ 1441 }
{
    match head {
        Some(head) => u64::from(head.header.length()),
        None => 0,
    }
}

/// How many bytes the head and all frames have, given the totals of the frames.
pub(crate) fn stream_length(survey: &Survey, totals: &Totals) -> u64
    requires totals { AreTotals (survey_view survey.now).frames totals.now }
    requires few { length (survey_view survey.now).frames ≤ most_frames }
    ensures { result ≡ stream_length (survey_view survey.now) }
{
    head_length(survey.head()) + totals.headers.lengths
}
