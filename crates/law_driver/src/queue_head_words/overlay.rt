//! What the driver stores in queue heads: their links, and after a stalled request the three words of the overlay by which the queue goes on
//! (EHCI 1.0, 3.6.3 and 4.10). Once a command has written the queue head, all else of its overlay is the controller's.
ghost use Rattle.std.specs.Prelude.{◌≡◌, ℕ, ◌+◌, ◌*◌, ◌<◌, ◌≤◌, [], ◌∷◌, map, Some, None, Ok};
ghost use Rattle.usb_base.specs.declared.commands.Cmd.{Cmd};
ghost use Rattle.word_mem.specs.Memory.{Mem};
ghost use Rattle.drv_table.specs.declared.content.Command.TheVariants as unfinished;
ghost use Rattle.drv_table.specs.declared.content.Endpoint.{Endpoint};
ghost use Rattle.drv_table.specs.declared.rows.DriverRow.TheVariants as rows;
ghost use Rattle.drv_table.specs.DriverContent.{DriverContent};
ghost use Rattle.drv_table.specs.Accepting.{Offered};
ghost use Rattle.drv_table.specs.Offers.{offered};
ghost use Rattle.drv_table.specs.Parts.{Parts};
ghost use Rattle.drv_table.specs.Commands.{events_of};
ghost use Rattle.drv_table.specs.Harvesting.{mends_of};
ghost use Rattle.drv_table.specs.Rows.{driver_row, after_driver_row};
ghost use Rattle.law_driver.specs.in_place.InPlace.{IsSound};
ghost use Rattle.law_driver.specs.queue_head_words.Overlay.{HasQueueHead, stored_address, StoresAt, LeavesWord, LeaveQueueHeads};

/// A row of the driver that stores into a queue head that wasn't given back (its twelve words: 48 bytes) stores its link, word 0, or is one
/// of the three stores after a stalled request (EHCI 1.0, 3.6.3 and 4.10: the overlay is the controller's).
pub fn stores_are_links_and_mends()
    ensures { (p : Parts) (b at : ℕ) → IsSound p.memory p.driver → HasQueueHead p.driver b → 32 * b ≤ at → at < 32 * b + 48 → stored_address (driver_row p) ≡ Some at → StoresAt p b at }
{}

/// Any event, also one that lends or gives back runs, leaves words 1 to 11 of a queue head that stands before and after it, but for the word
/// of the overlay that a store after a stalled request mends.
pub fn events_leave_the_overlay()
    ensures { (p : Parts) (b i : ℕ) → IsSound p.memory p.driver → HasQueueHead p.driver b → HasQueueHead (after_driver_row (driver_row p) p).driver b → 1 ≤ i → i < 12 → LeavesWord p b i }
{}

/// A command that is accepted leaves all twelve words of each queue head that there is: it writes those of a new one, which is linked later.
pub fn commands_leave_queue_heads()
    ensures { (d : DriverContent) (m : Mem) (cmd : Cmd) (o : Offered) → offered d m cmd ≡ Ok o → LeaveQueueHeads d m o }
{}

/// Worked rows, with a queue head in block 130 and a qTD in block 1: an open stores the link of the head, a cancel the link of the queue
/// head that led to the endpoint, a transfer the words of its first qTD, the token last; after a stalled request three words follow.
pub fn addresses_stored()
    ensures open { map stored_address (events_of (unfinished.Open 130)) ≡ None ∷ Some 4096 ∷ [] }
    ensures cancel { map stored_address (events_of (unfinished.Unlink 0 130 4098)) ≡ Some 4160 ∷ [] }
    ensures transfer { map stored_address (events_of (unfinished.Publish 1 [])) ≡ None ∷ Some 32 ∷ Some 36 ∷ Some 44 ∷ Some 48 ∷ Some 52 ∷ Some 56 ∷ Some 60 ∷ Some 40 ∷ [] }
    ensures stall { (x : Endpoint) → x.queue ≡ 130 → map (λ w. stored_address (rows.Mend w)) (mends_of x) ≡ Some 4176 ∷ Some 4180 ∷ Some 4184 ∷ [] }
{}
