//! Coroutines, generators and async generators, and what they await.
//!
//! A coroutine that is suspended in an `await` has what it awaits on top of its stack, maybe with an object between. So
//! a chain leads from one to the next, to a future, a plain `yield`, or whatever else stands there.
#![tactic(auto)]

mod awaits;
mod error;
mod holders;
mod kinds;
mod member;
mod places;
mod standing;
mod turn;

pub use awaits::{Awaits, read_awaits};
pub use error::AwaitError;
pub use kinds::Kind;
pub use member::{read_frame_place, read_kind};
pub use places::{
    ApartPlaces, ApartStack, AwaitTypes, ClassPlaces, CodePlaces, Family, Held, Holders,
    InsidePlaces, Places, States, Wants, is_sound, is_sound_family,
};
pub use standing::{Standing, State, read_standing};
pub use turn::{AwaitEnd, Stop, Turn};
