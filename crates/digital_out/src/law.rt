//! The law of levels.

ghost use Rattle.std.specs.Prelude.{◌≡◌, ℕ, ◌≤◌, List, None, false};
ghost use Rattle.plan_types.specs.Numbers.{tick_before};
ghost use Rattle.digital_out.specs.Calls.{OutputCall, AreFair, accepted_wants, after_all, made, new_queue};
ghost use Rattle.digital_out.specs.Outputs.{event_next};
ghost use Rattle.digital_out.specs.Levels.{first_miss, level_at, missed_at};

/// The law of levels: over every list of pushes and advances, the output is missed exactly where its commands
/// say so, and where nothing more happens before a tick, it has the level that they say.
pub fn levels_follow_commands()
    ensures missed { (slots max until : ℕ) (calls : List OutputCall) → AreFair (new_queue slots max) calls →
        (after_all (new_queue slots max) calls).time ≤ until →
        event_next until (after_all (new_queue slots max) calls) ≡ None →
        missed_at (made (new_queue slots max) calls)
        ≡ tick_before until (first_miss max false 0 (accepted_wants (new_queue slots max) calls)) }
    ensures level { (slots max until : ℕ) (calls : List OutputCall) → AreFair (new_queue slots max) calls →
        (after_all (new_queue slots max) calls).time ≤ until →
        event_next until (after_all (new_queue slots max) calls) ≡ None →
        (after_all (new_queue slots max) calls).level
        ≡ level_at max until (accepted_wants (new_queue slots max) calls) }
{}
