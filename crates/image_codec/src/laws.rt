//! What follows of the definitions alone.
ghost use Rattle.std.specs.Prelude.{◌≡◌, ◌++◌, [], ◌∷◌, None, Some, codes};
ghost use Rattle.image_codec.specs.Samples.{header};
ghost use Rattle.image_codec.specs.Image.{field_bytes, field_of, fields_of, header_bytes, image_bytes, image_fault, image_of, HasFields, IsAligned};

use crate::image::{Image, ImageWhy};

/// The bytes of an image have no fault and spell that image: no two images have the same bytes.
pub fn reads_back()
    ensures { (i : Image) → IsAligned i → HasFields i → (image_fault (image_bytes i) ≡ None) × (image_of (image_bytes i) ≡ i) }
{}

/// Worked values: a field of 32 bits has its lowest byte first.
pub fn fields()
    ensures page { field_of 0 16 0 0 ≡ 4096 }
    ensures highest { field_of 0 0 0 128 ≡ 2147483648 }
    ensures bytes { field_bytes 4202496 ≡ 0 ∷ 32 ∷ 64 ∷ 0 ∷ [] }
    ensures several { fields_of (2 ∷ 16 ∷ 0 ∷ 0 ∷ 0 ∷ 160 ∷ 64 ∷ 0 ∷ []) ≡ 4098 ∷ 4235264 ∷ [] }
{}

/// Worked values: short bytes are refused at their number, and bytes of a header at the first field that is wrong.
pub fn refusals()
    ensures nothing { image_fault [] ≡ Some (record { offset = 0; why = ImageWhy.Length }) }
    ensures short { image_fault (codes "EHCI") ≡ Some (record { offset = 4; why = ImageWhy.Length }) }
    ensures magic { image_fault (codes "EHCJ" ++ header 2 16384 1 1 1) ≡ Some (record { offset = 0; why = ImageWhy.Magic }) }
    ensures version { image_fault (codes "EHCI" ++ header 2 16384 1 1 1) ≡ Some (record { offset = 4; why = ImageWhy.Version }) }
    ensures frindex { image_fault (codes "EHCI" ++ header 1 16384 1 1 1) ≡ Some (record { offset = 8; why = ImageWhy.Alignment }) }
    ensures list_base { image_fault (codes "EHCI" ++ header 1 16383 2048 1 1) ≡ Some (record { offset = 12; why = ImageWhy.Alignment }) }
    ensures async_at { image_fault (codes "EHCI" ++ header 1 16383 4096 16 1) ≡ Some (record { offset = 16; why = ImageWhy.Alignment }) }
    ensures words { image_fault (codes "EHCI" ++ header 1 16383 4096 32 0) ≡ Some (record { offset = 20; why = ImageWhy.Alignment }) }
    ensures most { image_fault (codes "EHCI" ++ header 1 16383 4096 32 263168) ≡ Some (record { offset = 20; why = ImageWhy.Alignment }) }
    ensures total { image_fault (codes "EHCI" ++ header 1 16383 4096 32 2048) ≡ Some (record { offset = 24; why = ImageWhy.Length }) }
{}
