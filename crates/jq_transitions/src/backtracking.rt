// How a run goes back to the newest fork point, how an error reaches its handler, and how a break reaches its label.

pub mod cells;
pub mod handlers;
pub mod labels;
pub mod outcomes;
pub mod resuming;
