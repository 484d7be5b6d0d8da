//! What holds of a line whatever is put on it and whenever it is asked.

ghost use Rattle.std.specs.Prelude.{◌≡◌, ◌↔◌, ℕ, List, [], ◌++◌, map};
ghost use Rattle.wire_scene.specs.declared.scene.Entry.{Entry};
ghost use Rattle.wire_scene.specs.Wire.{IsQuiet, empty_line};
ghost use Rattle.wire_scene.specs.WireRuns.{AreOver, IsInOrder, Step, arrivals, blocks_put, deeds, greatest_up_to, own_turns, run_line, times, to_come, turns_put, turns_used, visits};

/// The law of order: the blocks that arrive, and behind them those that are still to come, are the blocks
/// that were put, in their order, a lost or garbled one no time, a repeated one twice, and each other one
/// once.
pub fn blocks_keep_order()
    ensures each { (connecting entries : List Entry) (steps : List Step) →
        arrivals steps (empty_line connecting entries) ++ to_come
        (run_line steps (empty_line connecting entries)).copies
        ≡ visits (blocks_put steps) (map times (deeds connecting entries 0 steps)) }
    ensures order { (connecting entries : List Entry) (steps : List Step) →
        IsInOrder (blocks_put steps) (arrivals steps (empty_line connecting entries)) }
{}

/// The law of turns: what is under way are the last blocks that were put, and each is due in the greatest of
/// its own turn and those of the blocks in front of it, where its own turn is the one in which it was put and
/// its delay.
pub fn blocks_are_due()
    ensures blocks { (connecting entries : List Entry) (steps : List Step) →
        (gone : List (List ℕ))
        × gone ++ map (λ c. c.bytes) (run_line steps (empty_line connecting entries)).copies ≡ blocks_put steps }
    ensures turns { (connecting entries : List Entry) (steps : List Step) →
        (gone : List ℕ) × gone ++ map (λ c. c.due) (run_line steps (empty_line connecting entries)).copies
        ≡ greatest_up_to 0 (own_turns (turns_put steps) (deeds connecting entries 0 steps)) }
{}

/// The law of quiet turns: a line is quiet in a turn exactly where nothing is under way and each turn in which an entry
/// was used is more than four turns before it.
pub fn lines_are_quiet()
    ensures { (connecting entries : List Entry) (steps : List Step) (turn : ℕ) →
        IsQuiet (run_line steps (empty_line connecting entries)) turn
        ↔ ((run_line steps (empty_line connecting entries)).copies ≡ [])
        × AreOver turn (turns_used (turns_put steps) (deeds connecting entries 0 steps)) }
{}
