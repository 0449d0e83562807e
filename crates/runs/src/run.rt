//! Runs: units go through an engine in a mode, one way.
pub mod closes;
pub mod drains;
pub mod feeds;
pub mod heading;
mod inner;
mod passing;
pub mod tells;

use self::heading::{Receiving, Sending};
use super::frame::Frame;

/// A run on a cartridge's engine; `W` says whether it enciphers or deciphers. It cannot be let go: it is closed.
pub struct Run<E, W> {
    pub(crate) heading: W,
    pub(crate) engine: E,
    pub(crate) frame: Frame,
}

/// A run that enciphers.
pub type EncipheringRun<E> = Run<E, Sending>;

/// A run that deciphers.
pub type DecipheringRun<E> = Run<E, Receiving>;
