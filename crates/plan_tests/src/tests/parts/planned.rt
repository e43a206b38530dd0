//! `plan` and `plan_led`, called once it is checked that they may be.

use crate::tests::checked::{all_fit, are_of_one_class, are_within, ascend};
use crate::tests::rows::{Row, expect_rows};
use slot_plan::{Need, Plan, Policy, plan, plan_led};
use std::alloc::{AllocError, AllocGlobal};
use std::process::Abort;

/// The plan of these parts.
pub fn plan_of<R: Abort + AllocGlobal, P: Policy>(
    rt: &R,
    needs: &[Need],
    parts: &[u32],
    policy: &P,
) -> Result<Plan, AllocError> {
    assert!(rt; !needs.is_empty());
    assert!(rt; needs.len() <= 2_900_000);
    assert!(rt; !parts.is_empty());
    assert!(rt; parts.len() <= 64);
    assert!(rt; parts[0] == 0);
    assert!(rt; ascend(parts));
    assert!(rt; are_within(parts, needs.len()));
    assert!(rt; are_of_one_class(needs));
    let window = needs[0].header.class().window();
    assert!(rt; all_fit(window, needs, parts));
    plan(rt.alloc(), needs, parts, policy)
}

/// Expects that the plan of these parts has these frames.
pub fn expect_plan<R: Abort + AllocGlobal, P: Policy>(
    rt: &R,
    needs: &[Need],
    parts: &[u32],
    policy: &P,
    rows: &[Row],
    name: &str,
) -> Result<(), AllocError> {
    let plan = plan_of(rt, needs, parts, policy)?;
    expect_rows(rt, needs, plan.placed(), rows, name);
    Ok(())
}

/// The led plan of these frames.
pub fn led_plan_of<R: Abort + AllocGlobal, P: Policy>(
    rt: &R,
    needs: &[Need],
    policy: &P,
) -> Result<Plan, AllocError> {
    let parts = [0];
    assert!(rt; !needs.is_empty());
    assert!(rt; needs.len() <= 2_900_000);
    assert!(rt; are_within(&parts, needs.len()));
    assert!(rt; are_of_one_class(needs));
    let window = needs[0].header.class().window();
    assert!(rt; ascend(&parts));
    assert!(rt; all_fit(window, needs, &parts));
    plan_led(rt.alloc(), needs, policy)
}

/// Expects that the led plan of these needs has these frames.
pub fn expect_led_plan<R: Abort + AllocGlobal, P: Policy>(
    rt: &R,
    needs: &[Need],
    policy: &P,
    rows: &[Row],
    name: &str,
) -> Result<(), AllocError> {
    let plan = led_plan_of(rt, needs, policy)?;
    expect_rows(rt, needs, plan.placed(), rows, name);
    Ok(())
}
