// The rules of the checkers: configurations and frames, and, in specs/, what a checker marks.
#![tactic(auto)]

mod config;
mod family;
mod frame;
mod marks;
mod reference;
mod refusal;
mod stopped;

pub use config::{Config, FATAL, MAX_EVENTS, MAX_KIND, MAX_WINDOW, MIN_EVENTS, MIN_WINDOW};
pub use family::{Family, NoSuchKind};
pub use frame::{FRAME_WORDS, Frame};
pub use marks::{CLOSED, FAILURE, ILLEGAL_START, MARKS, OPENED, RESTARTED, UNKNOWN};
pub use reference::{REFERENCE_HELD, REFERENCE_UNIT};
pub use refusal::{Refusal, refusal_number};
pub use stopped::STOPPED;
