//! What is done with a lane.
#![tactic(auto, unfolding(crate::specs::Ends::room, crate::specs::Ends::put_first, crate::specs::Ends::put, crate::specs::Ends::take_first, crate::specs::Ends::taken, crate::specs::Ends::IsSendOf, crate::specs::Ends::IsTakeOf))]

ghost use Rattle.std.specs.Prelude.{◌≡◌, ◌+◌, ◌<◌, ◌≤◌, [], ◌∷◌, ◌++◌, true, length, IfNone, IfOk, IfSome, Some};
ghost use Rattle.crossbeam_channel.specs.Claims.{view, IsSeatAt};
ghost use Rattle.crossbeam_channel.specs.Ends.{sends_on, ruled_capacity};
ghost use Rattle.lane_queue.specs.Order.{RunsFrom, IsPrefix};
ghost use Rattle.lane_queue.specs.Rule.{side, log, nothing, grown};
ghost use Rattle.lane_queue.specs.Ends.{room, IsSendOf, IsTakeOf, put_first, put, next_put, take_first, taken, next_take};

use crate::ends::Lane;
use crate::passes::{SendPass, Settled, TakePass};
use crate::rule::{Apart, Behind, Cut, Handed, InOrder, Log, Puts, Start, Takes, Total, Whole};
use crossbeam_channel::{Pass, RuledSender, bounded_with};
use plan_types::Numbered;
use std::alloc::{AllocError, Global};
use std::marker::Brand;
use std::sync::Wait;
use std::thread;

/// So often a lane is looked into before the one who takes sleeps.
const PATIENCE: u32 = 200;

/// An empty lane with room for `capacity` messages, which are numbered from `first` on, and its two passes. It takes
/// all its memory here.
pub fn lane<T: Numbered + Send>(
    alloc: Global,
    capacity: u32,
    first: u64,
) -> Result<(Lane<T>, SendPass<T>, TakePass<T>), AllocError>
    requires { 0 < capacity }
    ensures passes { IfOk result (λ r. IsSendOf r.0 r.1 × IsTakeOf r.0 r.2) }
    ensures room { IfOk result (λ r. room r.0 ≡ capacity) }
    ensures first { IfOk result (λ r. (put_first r.1 ≡ first) × (take_first r.2 ≡ first)) }
    ensures empty { IfOk result (λ r. (put r.1 ≡ []) × (taken r.2 ≡ [])) }
{
    let (sender, receiver, pass) = bounded_with::<T, Log<T>, InOrder, Global>(
        alloc,
        capacity as usize,
    )?;
    let (sending, taking) = cut::<T, Brand>(&sender, pass, first);
    Ok((
        Lane { sender, receiver },
        SendPass { pass: sending },
        TakePass { pass: taking },
    ))
}

// The proof picks K, whose numbers are those of this lane.
fn cut<T: Numbered, K: Start>(
    sender: &RuledSender<T, Log<T>, InOrder>,
    pass: Pass<T, Log<T>>,
    first: u64,
) -> (Pass<T, Log<T>>, Pass<T, Log<T>>)
    requires room { K.room ≡ ruled_capacity (sends_on sender.now) }
    requires first { K.first ≡ first }
    requires pass { IsSeatAt (sends_on sender.now) pass × (view pass ≡ log 0 (side true 0 []) (side true 0 [])) }
    ensures put { IsSeatAt (sends_on sender.now) result.0
        × (view result.0 ≡ log (ruled_capacity (sends_on sender.now)) (side true first []) nothing) }
    ensures take { IsSeatAt (sends_on sender.now) result.1 × (view result.1 ≡ log 0 nothing (side true first [])) }
{
    let mut pass = pass;
    let taking = sender.another::<Cut<K>>(&mut pass);
    (pass, taking)
}

// The proof picks K, whose item is the message.
fn pass_on<T: Numbered, K: Handed<T>>(
    sender: &RuledSender<T, Log<T>, InOrder>,
    pass: &mut Pass<T, Log<T>>,
    msg: &T,
) -> Pass<T, Log<T>>
    requires item { K.item ≡ Some msg.now }
    requires pass { IsSeatAt (sends_on sender.now) pass.old }
    requires may { ((view pass.old).put.may ≡ true) × ((view pass.old).taken.may ≡ true) }
    requires number { T.number msg.now ≡ (view pass.old).put.first + length (view pass.old).put.list }
    requires empty { (view pass.old).taken.first + length (view pass.old).taken.list
        ≡ (view pass.old).put.first + length (view pass.old).put.list }
    ensures put { IsSeatAt (sends_on sender.now) pass.new
        × (view pass.new ≡ log (view pass.old).room (grown (view pass.old).put msg.now) nothing) }
    ensures take { IsSeatAt (sends_on sender.now) result
        × (view result ≡ log 0 nothing (grown (view pass.old).taken msg.now)) }
{
    sender.another::<Behind<K>>(pass)
}

impl<T: Numbered> Lane<T> {
    /// Puts a message, which has the pass's next number. Waits while the lane is full.
    pub fn put<R: Wait>(&self, rt: &R, pass: &mut SendPass<T>, msg: T)
        requires lane { IsSendOf self.now pass.old }
        requires number { T.number msg ≡ next_put pass.old }
        ensures lane { IsSendOf self.now pass.new }
        ensures first { put_first pass.new ≡ put_first pass.old }
        ensures put { put pass.new ≡ put pass.old ++ msg ∷ [] }
    {
        let mut msg = msg;
        // The channel refuses only where an end of it is gone, and the lane holds both.
        for _ in rt.forever() {
            match self.sender.send_as::<Puts, R>(rt, &mut pass.pass, msg) {
                Ok(()) => return,
                Err(refused) => msg = refused.into_inner(),
            }
        }
        unreachable!()
    }

    /// Takes the next message, where there is one.
    fn try_take<R: Wait>(&self, rt: &R, pass: &mut TakePass<T>) -> Option<T>
        requires lane { IsTakeOf self.now pass.old }
        ensures lane { IsTakeOf self.now pass.new }
        ensures some { IfSome result (λ msg. (T.number msg ≡ next_take pass.old)
            × (take_first pass.new ≡ take_first pass.old) × (taken pass.new ≡ taken pass.old ++ msg ∷ [])) }
        ensures none { IfNone result ((take_first pass.new ≡ take_first pass.old) × (taken pass.new ≡ taken pass.old)) }
    {
        self.receiver
            .try_recv_as::<Takes, R>(rt, &mut pass.pass)
            .ok()
    }

    /// Takes the next message. Waits while the lane is empty.
    pub fn take<R: Wait>(&self, rt: &R, pass: &mut TakePass<T>) -> T
        requires lane { IsTakeOf self.now pass.old }
        ensures lane { IsTakeOf self.now pass.new }
        ensures number { T.number result ≡ next_take pass.old }
        ensures first { take_first pass.new ≡ take_first pass.old }
        ensures taken { taken pass.new ≡ taken pass.old ++ result ∷ [] }
    {
        // A thread that sleeps takes longer to wake than a turn takes to make.
        for _ in 0..PATIENCE {
            if let Some(msg) = self.try_take(rt, pass) {
                return msg;
            }
            thread::yield_now();
        }
        self.sleep_and_take(rt, pass)
    }

    /// The same, asleep while the lane is empty.
    fn sleep_and_take<R: Wait>(&self, rt: &R, pass: &mut TakePass<T>) -> T
        requires lane { IsTakeOf self.now pass.old }
        ensures lane { IsTakeOf self.now pass.new }
        ensures number { T.number result ≡ next_take pass.old }
        ensures first { take_first pass.new ≡ take_first pass.old }
        ensures taken { taken pass.new ≡ taken pass.old ++ result ∷ [] }
    {
        for _ in rt.forever() {
            if let Ok(next) = self.receiver.recv_as::<Takes, R>(rt, &mut pass.pass) {
                return next;
            }
        }
        unreachable!()
    }

    /// Hands a message from the side that puts to the side that takes, on one thread: as it were put and
    /// taken, where all that was put has been taken. The lane never holds it.
    pub fn hand(&self, send: &mut SendPass<T>, take: &mut TakePass<T>, msg: &T)
        requires send { IsSendOf self.now send.old }
        requires take { IsTakeOf self.now take.old }
        requires number { T.number msg.now ≡ next_put send.old }
        requires empty { T.number msg.now ≡ next_take take.old }
        ensures send { IsSendOf self.now send.new }
        ensures take { IsTakeOf self.now take.new }
        ensures put_first { put_first send.new ≡ put_first send.old }
        ensures put { put send.new ≡ put send.old ++ msg.now ∷ [] }
        ensures take_first { take_first take.new ≡ take_first take.old }
        ensures taken { taken take.new ≡ taken take.old ++ msg.now ∷ [] }
    {
        let taking = self.sender.another::<Apart>(&mut take.pass);
        self.sender.absorb::<Whole>(&mut send.pass, taking);
        take.pass = pass_on::<T, Brand>(&self.sender, &mut send.pass, msg);
    }

    /// Puts the two passes together, whatever messages the lane still holds: what was taken is the beginning of what
    /// was put, all but so many messages as the lane has room for, and the numbers of both run from the first one.
    pub fn settle(&self, s: SendPass<T>, t: TakePass<T>) -> Settled<T>
        requires put { IsSendOf self.now s }
        requires take { IsTakeOf self.now t }
        ensures put { result.0 ≡ put s }
        ensures taken { result.1 ≡ taken t }
        ensures prefix { IsPrefix result.1 result.0 }
        ensures left { length result.0 ≤ length result.1 + room self.now }
        ensures first { take_first t ≡ put_first s }
        ensures numbers { RunsFrom T.number (put_first s) result.0 }
        ensures taken_numbers { RunsFrom T.number (put_first s) result.1 }
    {
        let mut pass = s.pass;
        self.sender.absorb::<Whole>(&mut pass, t.pass);
        self.sender.learn_as::<Total>(&mut pass);
        Settled { pass }
    }
}
