//! Worked rows, which the check computes.
ghost use Rattle.std.specs.Prelude.{◌≡◌, ◌*◌, true, [], ◌∷◌, Some, None, slice_get, map};
ghost use Rattle.word_mem.specs.declared.blocks.BlockState.TheVariants.{Free, Lent};
ghost use Rattle.mem_runs.specs.declared.slots.Slot.TheVariants.{Empty};
ghost use Rattle.drv_table.specs.Rows.{driver_row, after_driver_row};
ghost use Rattle.qh_qtd.specs.Blank.{blank_head};
ghost use Rattle.law_structures.specs.lent_structures.Structures.{QueueHead};
ghost use Rattle.claims_driver.specs.Owners.{endpoint_in};
ghost use Rattle.law_world.specs.steps.endpoint_releases.Released.{endpoint_blocks, without_queue, IsToLeave, endpoint_row};
ghost use Rattle.law_world.specs.steps.endpoint_releases.Samples.{left_endpoint, left_driver, left_parts, left_structures};

/// The queue head, the inactive qTD, and of the transfer that wasn't given back the qTD and its buffer. It is the endpoint's turn.
pub fn what_goes()
    ensures leaves { IsToLeave left_driver 0 left_endpoint }
    ensures row { driver_row left_parts ≡ endpoint_row 0 }
    ensures blocks { endpoint_blocks left_driver 0 left_endpoint ≡ 1 ∷ 3 ∷ 4 ∷ 5 ∷ [] }
{}

/// Afterwards the book has none of these runs, and their blocks are Free; the endpoint and its transfers have no runs any more, and nothing else is to be given back.
pub fn what_is_left()
    ensures slots { (after_driver_row (endpoint_row 0) left_parts).driver.book.slots ≡ Empty ∷ Empty ∷ Empty ∷ Empty ∷ Empty ∷ Empty ∷ [] }
    ensures states { (after_driver_row (endpoint_row 0) left_parts).memory.states ≡ Lent ∷ Free ∷ Free ∷ Free ∷ Free ∷ Free ∷ [] }
    ensures endpoint { endpoint_in (after_driver_row (endpoint_row 0) left_parts).driver.endpoints 0 ≡ Some (record { queue = 1; dummy = 3; bare = true }) }
    ensures transfers { map (λ t. t.released) (after_driver_row (endpoint_row 0) left_parts).driver.transfers ≡ true ∷ true ∷ [] }
    ensures cleared { (after_driver_row (endpoint_row 0) left_parts).driver.cleared ≡ [] }
{}

/// Of the structures nothing is told of its queue head, and the other queue head is as it was.
pub fn what_is_told()
    ensures head { without_queue left_structures 32 32 32 ≡ None }
    ensures dummy { without_queue left_structures 32 32 96 ≡ None }
    ensures other { without_queue left_structures 32 192 192 ≡ Some (QueueHead blank_head) }
{}
