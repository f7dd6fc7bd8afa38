// The calls of a rank and of a world, and what their replies are to a caller.
mod fail;
mod missing;
pub mod polled;
mod replies;
mod typed;
