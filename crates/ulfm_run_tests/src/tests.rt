// The tests, by what they run.

mod devices;
mod failing_positions;
mod failing_scripts;
mod judged;
mod scripts;
mod step_lines;
