//! Two files that are read in step.

pub mod channel_place;
pub mod clock;
pub mod fault_of;
pub mod frame;
pub mod gather;
pub mod layout;
pub mod lockstep;
pub mod offset;
pub mod reading;
pub mod shares;
pub mod track;
pub mod turn;
pub mod watchers;
pub mod window;
