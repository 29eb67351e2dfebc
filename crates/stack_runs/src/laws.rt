//! The laws of runs of the stack guest, each a function of no effect whose contract is the law.
ghost use Rattle.std.specs.Prelude.{◌≡◌, ◌⊎◌, ◌+◌, ◌*◌, ◌<◌, ◌≤◌, ◌++◌, ◌∷◌, ℕ, Bool, List, Ok, Some, false, slice_get, true};
ghost use Rattle.a32_asm.specs.Assembled.{unit_of};
ghost use Rattle.elf32.specs.Image.{image_of};
ghost use Rattle.elf32.specs.Written.{written_file};
ghost use Rattle.llsc_base.specs.Sizes.{Numbers, room_of};
ghost use Rattle.history.specs.Monitor.{at_rest_by, monitor_after};
ghost use Rattle.history.specs.Parts.{accesses_of};
ghost use Rattle.history.specs.declared.entry.Entry.{Entry};
ghost use Rattle.history.specs.declared.entry.Entry.TheVariants as entry;
ghost use Rattle.llsc_base.specs.declared.access.Place.{Place};
ghost use Rattle.guest_thread.specs.Outcome.{HaveLeft, IsOutcome};
ghost use Rattle.guest_thread.specs.declared.ends.GuestEnd.{GuestEnd};
ghost use Rattle.a32_step.specs.Machine.{a32};
ghost use Rattle.a32_guests.specs.Cuts.{MayCut};
ghost use Rattle.stack_runs.specs.Guest.{AreInRange, count_of, node_at, stack_image, stack_unit, top};
ghost use Rattle.stack_runs.specs.Hands.{EachIsSomewhere, IsInHand, hand_of};
ghost use Rattle.stack_runs.specs.Stacks.{HoldsEachOnce, counts_below};
ghost use Rattle.stack_runs.specs.Text.{stack_text};

use llsc_base::Stop;

/// Worked texts of the stack guest, each of which assembles to it: with the fewest nodes and rounds, with some, and with the most.
pub fn worked_texts()
    ensures fewest { unit_of (stack_text 1 1) ≡ Ok (stack_unit 1 1) }
    ensures some { unit_of (stack_text 4 1000) ≡ Ok (stack_unit 4 1000) }
    ensures most { unit_of (stack_text 64 65535) ≡ Ok (stack_unit 64 65535) }
{}

/// In every history of the stack guest whose threads have all left with code 0, no node is lost and none is doubled: at the end the
/// stack holds each node once, and nothing else. And no addition to a count is lost, though none is exclusive: together the nodes
/// count every round of every thread.
pub fn nodes_come_back()
    ensures each_once { (nodes rounds budget : ℕ) (size : Numbers) (history : List Entry) (ends : List GuestEnd) →
        AreInRange nodes rounds size → IsOutcome a32 (stack_image nodes rounds size) size budget history ends → HaveLeft ends →
        HoldsEachOnce nodes (monitor_after (at_rest_by size.granule (stack_image nodes rounds size).bytes size.threads) (accesses_of history)).memory }
    ensures all_counted { (nodes rounds budget : ℕ) (size : Numbers) (history : List Entry) (ends : List GuestEnd) →
        AreInRange nodes rounds size → IsOutcome a32 (stack_image nodes rounds size) size budget history ends → HaveLeft ends →
        counts_below (monitor_after (at_rest_by size.granule (stack_image nodes rounds size).bytes size.threads) (accesses_of history)).memory nodes
        ≡ size.threads * rounds }
{}

/// At every moment of every history of the stack guest, however its threads end, each node is once on the stack, or in the hand of one
/// thread, and not both: a thread takes off the stack, by a store-exclusive that succeeds, what its last load-exclusive read, and puts
/// it back by its next one.
pub fn nodes_are_somewhere()
    ensures { (nodes rounds budget : ℕ) (size : Numbers) (history front back : List Entry) (ends : List GuestEnd) →
        AreInRange nodes rounds size → IsOutcome a32 (stack_image nodes rounds size) size budget history ends →
        accesses_of history ≡ front ++ back →
        EachIsSomewhere nodes size.threads
        (monitor_after (at_rest_by size.granule (stack_image nodes rounds size).bytes size.threads) front).memory front }
{}

/// So nobody else meddles with a node that a thread has in hand: in every history each store-exclusive that succeeds is to the top, and
/// each other store to a word of the node that is in the hand of its thread.
pub fn only_holders_store()
    ensures exclusive { (nodes rounds budget t value : ℕ) (size : Numbers) (history front back : List Entry) (ends : List GuestEnd) (place : Place) →
        AreInRange nodes rounds size → IsOutcome a32 (stack_image nodes rounds size) size budget history ends →
        accesses_of history ≡ front ++ entry.Write t place value true ∷ back → place ≡ top }
    ensures plain { (nodes rounds budget t value : ℕ) (size : Numbers) (history front back : List Entry) (ends : List GuestEnd) (place : Place) →
        AreInRange nodes rounds size → IsOutcome a32 (stack_image nodes rounds size) size budget history ends →
        accesses_of history ≡ front ++ entry.Write t place value false ∷ back → IsInHand nodes (hand_of t front) place }
{}

/// Nor does anybody else load its count: in every history each load of a node's count is by the thread that has the node in hand.
pub fn only_holders_load_counts()
    ensures { (nodes rounds budget index t value : ℕ) (size : Numbers) (history front back : List Entry) (ends : List GuestEnd) (exclusive : Bool) →
        AreInRange nodes rounds size → IsOutcome a32 (stack_image nodes rounds size) size budget history ends → index < nodes →
        accesses_of history ≡ front ++ entry.Read t (count_of (node_at index)) value exclusive ∷ back →
        (hand_of t front).node ≡ node_at index }
{}

/// No thread of the stack guest is stopped at an access or an instruction: in every history each leaves with code 0, or is cut off.
pub fn threads_leave_or_are_cut_off()
    ensures { (nodes rounds budget t : ℕ) (size : Numbers) (history : List Entry) (ends : List GuestEnd) (end : GuestEnd) →
        AreInRange nodes rounds size → IsOutcome a32 (stack_image nodes rounds size) size budget history ends →
        slice_get ends t ≡ Some end → (end.stop ≡ Stop.Exit 0) ⊎ MayCut end.stop }
{}

/// The file that the assembler writes of the stack guest gives its image, on a machine that has room for it below the stacks.
pub fn files_give_the_image()
    ensures { (nodes rounds : ℕ) (size : Numbers) → nodes ≤ 64 → 8256 + 8 * nodes ≤ room_of size →
        image_of (written_file (stack_unit nodes rounds)) size ≡ stack_image nodes rounds size }
{}
