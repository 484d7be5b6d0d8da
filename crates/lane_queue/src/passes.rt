//! The two passes of a lane, and the two together.
use crate::rule::Log;
use crossbeam_channel::Pass;
use std::marker::Model;

/// The right to put into a lane. Contracts see the list of what was put with it.
#[derive(Drop)]
pub struct SendPass<T> {
    pub(crate) pass: Pass<T, Log<T>>,
}

/// The right to take from a lane. Contracts see the list of what was taken with it.
#[derive(Drop)]
pub struct TakePass<T> {
    pub(crate) pass: Pass<T, Log<T>>,
}

/// Both passes of a lane together. Contracts see the two lists: what was put, and what was taken.
#[derive(Drop)]
pub struct Settled<T> {
    pub(crate) pass: Pass<T, Log<T>>,
}

impl<T> Model for Settled<T> {
    ghost use Rattle.std.specs.Prelude.{List};
    ghost use Rattle.crossbeam_channel.specs.Claims.{view as view_of};

    ghost Value = { List T × List T };

    ghost view = { λ s. ((view_of s.pass).put.list, (view_of s.pass).taken.list) };
}
