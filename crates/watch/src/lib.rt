// The watch, in document 01's term: the camera's own count of windows, load by load. The state that
// comes back replaces the one that went in. specs/States.antt has the states that loads lead to,
// specs/Start.antt and specs/Promise.antt what comes back.
#![tactic(auto)]

mod reached;
mod run;
mod start;
mod step;

pub use run::Ran;
pub use step::Stepped;

// The settings, how many slots were taken and how many windows opened, and what is left to the
// active window, the one that the next slot may still lie in: `room` is the slots left to it,
// `spare` the bridges. Both are 0 when no window is active, as C has no Option.
#[repr(C)]
#[derive(Clone, Copy)]
pub struct Watch {
    pub k: i32,
    pub len: u16,
    pub h: u16,
    pub taken: u32,
    pub windows: u32,
    pub room: u16,
    pub spare: u16,
}
