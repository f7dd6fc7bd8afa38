// The tests, by what they are of.

mod answers;
mod compared;
mod faults;
mod holder;
mod past;
mod plain_judge;
mod reasons;
mod rows;
mod second_check;
mod tested;
mod traces;
mod variations;
