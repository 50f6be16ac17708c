//! Worlds, sessions, walks and runs that are made smaller, for programs in other languages: a static library. `bindings/ct.h` says how C calls it.
#![tactic(auto)]

mod applied;
mod asked;
mod drawing;
mod handle;
mod held_session;
mod held_shrinker;
mod held_walk;
mod held_world;
mod letter_code;
mod message_code;
mod numbers;
mod opened;
mod options_code;
mod own_session;
mod own_world;
mod parts;
mod record_calls;
mod refusal_number;
mod room;
mod said;
mod sent;
mod session_calls;
mod shrink_calls;
mod standing_code;
mod step_code;
mod turn_code;
mod version;
mod walk_calls;
mod world_calls;

pub use applied::Applied;
pub use handle::Handle;
pub use held_session::HeldSession;
pub use held_shrinker::HeldShrinker;
pub use held_walk::HeldWalk;
pub use held_world::HeldWorld;
pub use letter_code::LetterCode;
pub use message_code::MessageCode;
pub use opened::Opened;
pub use options_code::OptionsCode;
pub use standing_code::StandingCode;
pub use step_code::StepCode;
pub use turn_code::TurnCode;
