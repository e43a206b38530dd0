//! What is known of the input that is cut.
use info_header::Info;
use sync_survey::Survey;

/// The survey by which pieces are laid, and what is read from the head if pieces need it.
#[derive(Drop)]
pub(crate) struct SplitSource {
    pub survey: Survey,
    pub head: Option<Info>,
}
