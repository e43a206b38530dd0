//! Files that are shorter than the folder says.

use super::stretches::Z;
use outside::{MemFolder, ShortFolder};
use std::alloc::{AllocError, Global};
use std::process::Abort;
use std::test::Fail;
use sync_survey::{SurveyFault, survey};
use test_files::files::{Stretch, bytes_of};

/// The fault that the survey finds in a file that has `extra` bytes fewer than the folder says.
fn fault_of(
    alloc: Global,
    file: &[Stretch],
    extra: u64,
) -> Result<Option<SurveyFault>, AllocError> {
    let mut inner = MemFolder::new(alloc);
    inner.put("a", &bytes_of(alloc, file)?)?;
    let mut folder = ShortFolder::new(inner, extra);
    match survey(alloc, &mut folder, "a", 1000) {
        Ok(_) => Ok(None),
        Err(fault) => Ok(Some(fault)),
    }
}

#[test]
fn shorter_than_the_folder_says(rt: HostRuntime) -> Result<(), Fail> {
    let five = fault_of(rt.alloc(), &[Z, Z], 5)?;
    assert!(rt; five == Some(SurveyFault::Shrunk(839, 834)));
    let many = fault_of(rt.alloc(), &[Z], 1_073_741_824)?;
    assert!(rt; many == Some(SurveyFault::TooLong(1_073_742_241)));
    Ok(())
}
