//! Session descriptions (RFC 4566) as far as calls and conferences read them, and the offer and the answer of the mixer (RFC 3264).
#![tactic(auto)]

mod faults;
mod lines;
mod media;
mod mixer;
mod offers;
mod values;
mod views;
mod writing;

pub use faults::{AnswerFault, SdpFault};
pub use mixer::{mixer_answer, mixer_offer};
pub use offers::{direction_in_body, kinds_of, offers_audio, view_of};
pub use values::{Direction, Medium, Mixer, SdpView};
pub use views::look;
