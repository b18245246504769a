//! Worked rows of the tables and of a disk of one block, which the check computes.
ghost use Rattle.std.specs.Prelude.{◌≡◌, [], ◌∷◌, ◌++◌, drop, take, true, false, None, Some};
ghost use Rattle.bulk_only.specs.declared.status_block.CommandStatus.TheVariants.{Passed};
ghost use Rattle.bulk_only.specs.Blocks.{command_bytes};
ghost use Rattle.bulk_only.specs.Commands.{block_of, bytes_of};
ghost use Rattle.bulk_only.specs.Contents.{disk_reset, disk_took, fits, opening, takes};
ghost use Rattle.bulk_only.specs.Fronts.{is_front};
ghost use Rattle.bulk_only.specs.Laws.{are_commands, is_command, is_part};
ghost use Rattle.bulk_only.specs.Status.{status_of};
ghost use Rattle.bulk_only.specs.Worked.{all_bytes, begun, filled, passed, read_one, small_disk, three, three_answers, write_block_3, write_one};

/// The command block of a write of block 3, and its status block (5.1 and 5.2).
pub fn blocks()
    ensures command { command_bytes write_block_3 ≡ 85 ∷ 83 ∷ 66 ∷ 67 ∷ 1 ∷ 0 ∷ 0 ∷ 0 ∷ 0 ∷ 2 ∷ 0 ∷ 0 ∷ 0 ∷ 0 ∷ 10 ∷ 42 ∷ 0 ∷ 0 ∷ 0 ∷ 0 ∷ 3 ∷ 0 ∷ 0 ∷ 1 ∷ 0 ∷ 0 ∷ 0 ∷ 0 ∷ 0 ∷ 0 ∷ 0 ∷ [] }
    ensures status { passed 1 ≡ 85 ∷ 83 ∷ 66 ∷ 83 ∷ 1 ∷ 0 ∷ 0 ∷ 0 ∷ 0 ∷ 0 ∷ 0 ∷ 0 ∷ 0 ∷ [] }
    ensures status_read { status_of (passed 1) ≡ Some (record { tag = 1; residue = 0; status = Passed }) }
    ensures phase_error { status_of (85 ∷ 83 ∷ 66 ∷ 83 ∷ 1 ∷ 0 ∷ 0 ∷ 0 ∷ 0 ∷ 0 ∷ 0 ∷ 0 ∷ 2 ∷ []) ≡ None }
    ensures command_as_status { status_of (take 13 (command_bytes write_block_3)) ≡ None }
{}

/// What may stand at the front of a command block (6.2).
#[tactic(auto, unfolding(crate::specs::Fronts::is_front, crate::specs::Commands::block_of))]
pub fn fronts()
    ensures two_bytes { is_front (85 ∷ 83 ∷ []) ≡ true }
    ensures wrong_signature { is_front (85 ∷ 84 ∷ []) ≡ false }
    ensures whole { block_of (command_bytes write_block_3) ≡ Some write_block_3 }
    ensures forty_blocks { is_front (command_bytes (record write_block_3 { blocks = 40 })) ≡ true }
    ensures forty_one_blocks { is_front (command_bytes (record write_block_3 { blocks = 41 })) ≡ false }
    ensures no_blocks { is_front (command_bytes (record write_block_3 { blocks = 0 })) ≡ false }
    // the flags of a read, and the code of a write
    ensures read_with_the_code_of_a_write { is_front (take 12 (command_bytes write_block_3) ++ 128 ∷ 0 ∷ 10 ∷ 42 ∷ []) ≡ false }
    ensures write_with_its_code { is_front (take 12 (command_bytes write_block_3) ++ 0 ∷ 0 ∷ 10 ∷ 42 ∷ []) ≡ true }
    // the data length of one block, and the number of two
    ensures two_numbers_of_blocks { is_front (take 22 (command_bytes write_block_3) ++ 0 ∷ 2 ∷ []) ≡ false }
{}

/// Three commands and a front part of a fourth meet the premises of the laws. A write that lacks a byte is no command, a whole block no
/// front part, and room for one byte less is too little.
#[tactic(auto, unfolding(crate::specs::Fronts::is_front, crate::specs::Commands::block_of, crate::specs::Contents::reply_lengths))]
pub fn premises()
    ensures commands { are_commands three ≡ true }
    ensures part { is_part begun ≡ true }
    ensures room { fits three (small_disk 1063).stored.replies ≡ true }
    ensures short_data { is_command (record write_one { bytes = filled 7 511 }) ≡ false }
    ensures whole_is_no_part { is_part (bytes_of read_one) ≡ false }
    ensures too_little_room { fits three (small_disk 1062).stored.replies ≡ false }
{}

/// What the disk says and has after these bytes, also when they come in two parts; where the replies don't fit or the bytes are no
/// command nothing changes.
#[tactic(auto, unfolding(crate::specs::Fronts::is_front, crate::specs::Commands::block_of, crate::specs::Commands::first_command, crate::specs::Commands::commands_in, crate::specs::Commands::rest_in, crate::specs::Contents::contents, crate::specs::Contents::answers, crate::specs::Contents::reply_lengths))]
pub fn disk()
    ensures replies { (disk_took all_bytes (small_disk 1063)).stored.replies.packets ≡ three_answers }
    ensures bytes { (disk_took all_bytes (small_disk 1063)).stored.bytes ≡ filled 7 512 }
    ensures begun { (disk_took all_bytes (small_disk 1063)).begun ≡ begun }
    ensures in_two_parts { (disk_took (drop 300 all_bytes) (disk_took (take 300 all_bytes) (small_disk 1063))).stored.replies.packets ≡ three_answers }
    ensures before_its_last_byte { (disk_took (take 542 all_bytes) (small_disk 1063)).stored.bytes ≡ (small_disk 1063).stored.bytes }
    ensures no_room { takes all_bytes (small_disk 1062) ≡ false }
    ensures no_command { takes (84 ∷ []) (small_disk 1063) ≡ false }
    ensures forgotten { (disk_reset (disk_took all_bytes (small_disk 1063))).begun ≡ [] }
{}

/// Byte j of block i is (i + j) mod 256 at first.
#[tactic(auto, unfolding(crate::specs::Contents::opening))]
pub fn at_first()
    ensures first { take 3 (opening 2) ≡ 0 ∷ 1 ∷ 2 ∷ [] }
    ensures second { take 2 (drop 512 (opening 2)) ≡ 1 ∷ 2 ∷ [] }
    ensures last { drop 1023 (opening 2) ≡ 0 ∷ [] }
{}
