// The tests, by what they are of.

mod calls;
mod largest;
mod member;
mod places;
mod revoking;
mod words;
