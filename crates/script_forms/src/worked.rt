//! Laws of the definitions, and worked words, which the check computes.
ghost use Rattle.std.specs.Prelude.{◌≡◌, ℕ, ◌<◌, ◌↔◌, List, [], ◌∷◌, Some, None, Ok, Err, true, codes};
ghost use Rattle.std.specs.Fmt.{decimal};
ghost use Rattle.script_forms.specs.Syntax.{number_of, hex_of};
ghost use Rattle.script_forms.specs.Table.{first_in};
ghost use Rattle.script_forms.specs.Fitting.{form_of};
ghost use Rattle.script_forms.specs.Values.{statement_of};
ghost use Rattle.usb_base.specs.declared.packets.Way.TheVariants.{In};

use crate::causes::TextWhy;
use crate::statements::{Answer, Statement};
use crate::table::{FirstWord, Form};

/// A word spells a number exactly where it is the number's decimal digits, and the number has 32 bits.
pub fn numbers_are_decimal()
    ensures reads { (w : List ℕ) (n : ℕ) → number_of w ≡ Some n → (n < 4294967296) × (w ≡ decimal n) }
    ensures spells { (n : ℕ) → n < 4294967296 → number_of (decimal n) ≡ Some n }
{}

/// Numbers.
pub fn numbers()
    ensures some { number_of (codes "512") ≡ Some 512 }
    ensures zero { number_of (codes "0") ≡ Some 0 }
    ensures last { number_of (codes "4294967295") ≡ Some 4294967295 }
    ensures none { number_of [] ≡ None }
    ensures leading_zero { number_of (codes "03") ≡ None }
    ensures sign { number_of (codes "+3") ≡ None }
    ensures long { number_of (codes "4294967296") ≡ None }
{}

/// Bytes.
pub fn bytes()
    ensures some { hex_of (codes "01ff") ≡ Some (1 ∷ 255 ∷ []) }
    ensures none { hex_of (codes "-") ≡ Some [] }
    ensures empty { hex_of [] ≡ None }
    ensures odd { hex_of (codes "012") ≡ None }
    ensures upper { hex_of (codes "0A") ≡ None }
{}

/// Which form words fit, and why they fit none.
pub fn forms_of_words()
    ensures bulk { form_of 1 FirstWord.Ep (codes "3" ∷ codes "1" ∷ codes "in" ∷ codes "bulk" ∷ codes "512" ∷ []) ≡ Ok Form.EpBulk }
    ensures number_of_control { form_of 1 FirstWord.Ep (codes "3" ∷ codes "1" ∷ codes "ctl" ∷ codes "control" ∷ codes "64" ∷ [])
        ≡ Err TextWhy.Range }
    ensures way_of_control { form_of 1 FirstWord.Ep (codes "3" ∷ codes "1" ∷ codes "in" ∷ codes "control" ∷ codes "8" ∷ [])
        ≡ Err TextWhy.Word }
    ensures count { form_of 1 FirstWord.Ep (codes "3" ∷ codes "1" ∷ codes "in" ∷ codes "bulk" ∷ []) ≡ Err TextWhy.Count }
    ensures hex_or_fill { form_of 1 FirstWord.Put (codes "3" ∷ codes "1" ∷ codes "out" ∷ codes "full" ∷ codes "7" ∷ codes "7" ∷ [])
        ≡ Err TextWhy.Hex }
    ensures number { form_of 1 FirstWord.Put (codes "3" ∷ codes "1" ∷ codes "out" ∷ codes "fill" ∷ codes "x" ∷ codes "7" ∷ [])
        ≡ Err TextWhy.Number }
    ensures by { form_of 1 FirstWord.Put (codes "3" ∷ codes "1" ∷ codes "out" ∷ codes "00" ∷ codes "7" ∷ codes "7" ∷ [])
        ≡ Err TextWhy.Word }
    ensures multi { form_of 2 FirstWord.Hub (codes "9" ∷ codes "4" ∷ codes "multi" ∷ []) ≡ Ok Form.HubMulti }
    ensures single { form_of 2 FirstWord.Hub (codes "9" ∷ codes "4" ∷ codes "single" ∷ []) ≡ Err TextWhy.Word }
    ensures one_translator { form_of 1 FirstWord.Hub (codes "9" ∷ codes "4" ∷ codes "multi" ∷ []) ≡ Err TextWhy.Count }
    ensures no_ports { form_of 2 FirstWord.Hub (codes "9" ∷ codes "0" ∷ codes "multi" ∷ []) ≡ Err TextWhy.Range }
    ensures stuffed { form_of 2 FirstWord.Stuff (codes "3" ∷ codes "1" ∷ codes "in" ∷ codes "7" ∷ []) ≡ Err TextWhy.Range }
    ensures setup { form_of 1 FirstWord.Control (codes "3" ∷ codes "80060001" ∷ []) ≡ Err TextWhy.Hex }
{}

/// The first words of a version.
pub fn versions()
    ensures first { first_in 1 (codes "mem") ≡ Some FirstWord.Mem }
    ensures second { first_in 2 (codes "mem") ≡ Some FirstWord.Mem }
    ensures later { first_in 2 (codes "park") ≡ None }
    ensures never { first_in 1 (codes "park") ≡ None }
    ensures unknown { first_in 2 (codes "device") ≡ None }
    ensures built { first_in 2 (codes "stuff") ≡ Some FirstWord.Stuff }
    ensures not_yet { first_in 1 (codes "stuff") ≡ None }
    ensures clear { first_in 2 (codes "clear") ≡ Some FirstWord.Clear }
    ensures no_clear { first_in 1 (codes "clear") ≡ None }
    ensures epoch { first_in 2 (codes "epoch") ≡ Some FirstWord.Epoch }
    ensures no_epoch { first_in 1 (codes "epoch") ≡ None }
{}

/// What words say.
pub fn statements()
    ensures micro { statement_of Form.OrderM (codes "m" ∷ codes "20" ∷ []) ≡ Statement.Micro 20 }
    ensures hold { statement_of Form.Hold (codes "2" ∷ codes "7" ∷ []) ≡ Statement.Hold 2 7 }
    ensures epoch { statement_of Form.Epoch (codes "3" ∷ codes "1" ∷ codes "in" ∷ [])
        ≡ Statement.Reply (record { addr = 3; num = 1; way = In }) Answer.Epoch }
    ensures clear { statement_of Form.Clear (codes "3" ∷ codes "1" ∷ codes "in" ∷ [])
        ≡ Statement.Clear (record { addr = 3; num = 1; way = In }) }
    ensures multi { statement_of Form.HubMulti (codes "9" ∷ codes "4" ∷ codes "multi" ∷ []) ≡ Statement.Hub 9 4 true }
{}
