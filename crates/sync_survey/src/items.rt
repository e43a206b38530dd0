//! What begins at an offset.
ghost use Rattle.std.specs.Prelude.{◌≡◌, ◌<◌, ◌≤◌, Some, length};
ghost use Rattle.frame_header.specs.Fields.{HeaderFields};
ghost use Rattle.frame_header.specs.Reading.{header_of_class};
ghost use Rattle.sync_survey.specs.Items.{header_front, item_front, size_of, same_class};
ghost use Rattle.sync_survey.specs.Walk.{fault_at};
ghost use Rattle.sync_survey.specs.SurveyFaultKinds.{RefusesRightly};
ghost use Rattle.frame_header.specs.Limits.{most_frame_length};

use crate::survey_fault::SurveyFault;
use frame_header::{Class, Header, NotHeader};
use tag_blocks::{Block, block_at};

/// What begins at an offset of a file. Exactly one of these does.
#[derive(Clone, Copy, Debug, PartialEq, Eq)]
pub enum Item {
    /// The header of a frame, which may go past the end of the file.
    Frame(Header),
    /// A header with bit rate index 0: free format.
    Free,
    /// The first bytes of a block, which may go past the end of the file.
    Block(Block),
    /// A zero byte.
    Zero,
    /// The end of the file.
    End,
    /// None of these.
    Nothing,
}

/// The header with which the bytes begin.
///
/// # Errors
/// `Free` if it has bit rate index 0, `No` if there is none, or if there are fewer than four bytes.
#[tactic(auto, unfolding(crate::specs::Items::header_front))]
pub fn header_front(bytes: &[u8]) -> Result<Header, NotHeader>
    ensures { result ≡ header_front bytes.now }
{
    let [a, b, c, d, ..] = bytes else {
        return Err(NotHeader::No);
    };
    Header::read([*a, *b, *c, *d])
}

/// The header with which the bytes begin, if it is of this class.
#[inline(always)]
#[tactic(auto, unfolding(crate::specs::Items::header_front))]
pub fn header_of_class(class: Class, bytes: &[u8]) -> Option<Header>
    ensures { result ≡ header_of_class class (header_front bytes.now) }
{
    let [a, b, c, d, ..] = bytes else {
        return None;
    };
    Header::read_of(class, [*a, *b, *c, *d])
}

/// The item with which the bytes begin.
#[inline(always)]
#[tactic(auto, unfolding(crate::specs::Items::item_front))]
pub fn item_front(bytes: &[u8]) -> Item
    ensures { result ≡ item_front bytes.now }
{
    match header_front(bytes) {
        Ok(header) => return Item::Frame(header),
        Err(NotHeader::Free) => return Item::Free,
        Err(NotHeader::No) => {}
    }
    if let Some(block) = block_at(bytes) {
        return Item::Block(block);
    }
    match bytes.first() {
        Some(0) => Item::Zero,
        Some(_) => Item::Nothing,
        None => Item::End,
    }
}

impl Item {
    /// The length in bytes of a frame, a block or a zero byte; 0 for anything else.
    pub(crate) fn size(&self) -> u64
        ensures size { result ≡ size_of self.now }
        ensures most { (h : HeaderFields) → self.now ≡ Item.Frame h → result ≤ most_frame_length }
    {
        match self {
            Item::Frame(header) => u64::from(header.length()),
            Item::Block(block) => block.length,
            Item::Zero => 1,
            Item::Free | Item::End | Item::Nothing => 0,
        }
    }

    /// Why a walk stops at this offset, if this item begins there and isn't passed; `None` at the end of
    /// the file.
    pub(crate) fn fault(&self, at: u64) -> Option<SurveyFault>
        ensures { result ≡ fault_at at self.now }
    {
        match self {
            Item::Frame(_) | Item::Block(_) => Some(SurveyFault::Truncated(at)),
            Item::Free => Some(SurveyFault::FreeFormat(at)),
            Item::Zero | Item::Nothing => Some(SurveyFault::LostSync(at)),
            Item::End => None,
        }
    }
}

/// Whether version, sampling frequency and number of channels are the same.
pub fn is_same_class(a: Class, b: Class) -> bool
    ensures { result ≡ same_class a b }
{
    a.is_same(b)
}

/// Why the walk stops at an offset at which no whole item of the stream begins. `bytes` are those
/// from there on, at least one.
pub(crate) fn stop_fault(bytes: &[u8], at: u64) -> SurveyFault
    requires { 0 < length bytes.now }
    ensures fault { fault_at at (item_front bytes.now) ≡ Some result }
    ensures refused { RefusesRightly result }
{
    item_front(bytes)
        .fault(at)
        .unwrap_or(SurveyFault::LostSync(at))
}
