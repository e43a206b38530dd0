//! `best`, called once it is checked that it may be.

use crate::tests::checked::{are_of_one_class, fit};
use best_plan::best;
use slot_plan::{Least, Need, Plan};
use std::alloc::{AllocError, AllocGlobal};
use std::process::Abort;

/// The best plan; `None` where the frames have no layout in their own slots.
pub fn best_of<R: Abort + AllocGlobal>(rt: &R, needs: &[Need]) -> Result<Option<Plan>, AllocError> {
    assert!(rt; !needs.is_empty());
    assert!(rt; needs.len() <= 200_000);
    assert!(rt; are_of_one_class(needs));
    let window = needs[0].header.class().window();
    if !fit(window, window, needs) {
        return Ok(None);
    }
    Ok(Some(best(rt.alloc(), needs, &Least)?))
}
