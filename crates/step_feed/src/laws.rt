//! The laws of pacing.

ghost use Rattle.std.specs.Prelude.{◌≡◌, ℕ, ◌+◌, ◌<◌, ◌≤◌, List, [], ◌++◌, length};
ghost use Rattle.plan_types.specs.Lines.{Clocks};
ghost use Rattle.clock_line.specs.Kept.{AreKept};
ghost use Rattle.step_feed.specs.declared.stream.FeedStream.{FeedStream};
ghost use Rattle.msg_code.specs.Units.{unit_text};
ghost use Rattle.step_feed.specs.Units.{StepUnit, unit_bytes};
ghost use Rattle.step_feed.specs.Pacing.{ArePaced, Release, batch_at, lead, units_of};
ghost use Rattle.step_feed.specs.Streams.{AreLater, Extends, IsFedOf, stream_start, next_turn, slots_of};

/// Units have one pacing.
pub fn one_pacing()
    ensures { (clocks : Clocks) → (slots from : ℕ) → (one two : List Release) → ArePaced clocks slots from [] one →
        ArePaced clocks slots from [] two → units_of one ≡ units_of two → one ≡ two }
{}

/// A stream gives for each turn the units that the pacing of the whole section has for it, whatever is pushed later,
/// as long as it is due later than 250 turns after the last turn that was given.
pub fn streams_give_the_whole()
    ensures { (s : FeedStream) → (clocks : Clocks) → (pushed more : List StepUnit) → (released all : List Release) →
        IsFedOf s clocks pushed released → AreLater (next_turn s) more →
        ArePaced clocks (slots_of s) (stream_start s) [] all → units_of all ≡ pushed ++ more → (k : ℕ) →
        k < next_turn s →
        batch_at k released ≡ batch_at k all }
{}

/// Lines that hold from times after the beginning of the next turn change nothing of what a stream has given.
pub fn lines_may_be_added()
    ensures { (s : FeedStream) → (old new : Clocks) → (pushed : List StepUnit) → (released : List Release) →
        AreKept old → AreKept new → Extends old new (next_turn s) → IsFedOf s old pushed released →
        IsFedOf s new pushed released }
{}

/// The bytes of a unit are those that a board is sent for it.
pub fn counts_what_is_sent()
    ensures { (u : StepUnit) → length (unit_text u) ≡ unit_bytes u }
{}
