//! What the tests of whole commands build on: commands in words over a folder and sinks in memory, what the rows of such commands say (as
//! `acceptance_kit::scripts` describes them), and how commands differ from what they should do.
#![tactic(auto)]

pub mod before;
pub mod differences;
pub mod ended;
pub mod files;
pub mod lines;
pub mod progress;
pub mod running;
pub mod stop;
