//! Tests of folders, sinks and the buffers over them.
#![tactic(auto)]

#[cfg(test)]
mod folders;
