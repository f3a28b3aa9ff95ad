//! What no clause states: messages, devices that fail midway, and worked cases of lines and
//! sessions.

mod devices;
mod example;
mod failures;
mod lines;
mod messages;
mod notation;
mod sessions;
