// The tests, by what they are of.

mod acknowledging;
mod calls;
mod jobs;
mod last_steps;
mod member;
mod memory;
mod play;
mod sizes;
mod step_by_step;
