// Consoles over slices of the caller: the tray, which is fed, and the page, which has a document.
#![tactic(auto)]

pub mod limits;
pub mod page;
pub mod tray;
