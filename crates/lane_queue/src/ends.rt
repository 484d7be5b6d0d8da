//! A lane: both ends of its channel.
ghost use Rattle.std.specs.Prelude.{◌≡◌};
ghost use Rattle.crossbeam_channel.specs.Ends.{sends_on, receives_on};

use crate::rule::{InOrder, Log};
use crossbeam_channel::{RuledReceiver, RuledSender};
use plan_types::Numbered;

/// Carries messages from the one who holds its `SendPass` to the one who holds its `TakePass`; both share it by
/// reference.
#[derive(Drop)]
pub struct Lane<T: Numbered> {
    pub(crate) sender: RuledSender<T, Log<T>, InOrder>,
    pub(crate) receiver: RuledReceiver<T, Log<T>, InOrder>,
    pub(crate) ghost one: { receives_on receiver ≡ sends_on sender },
}
