//! Failure detectors (Chandra and Toueg, section 2.2): a member's module answers whether it suspects a coordinator. Here
//! are modules that answer by simple rules, for rehearsals. No call takes memory.
#![tactic(auto)]

mod always;
mod ask;
mod detector;
mod every_nth;
mod listed;
mod never;
mod seeded;

pub use always::Always;
pub use ask::Ask;
pub use detector::Detector;
pub use every_nth::EveryNth;
pub use listed::Listed;
pub use never::Never;
pub use seeded::Seeded;
