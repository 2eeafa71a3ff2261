//! Laws of the definitions: functions without code, whose contracts are the laws.
ghost use Rattle.std.specs.Prelude.{◌≡◌, ◌+◌, ◌<◌, ℕ, List, [], ◌++◌, length, Bool};
ghost use Rattle.img_samples.specs.Decoding.{SampleFormatValue, sample_code, mask_byte, mask_format};
ghost use Rattle.img_samples.specs.Rows.{row_bytes, row_codes};
ghost use Rattle.img_samples.specs.Gathering.{GatherValue, fed};

/// Data that come in two pieces make of an image what they make in one.
pub fn pieces_are_as_one()
    ensures { (g : GatherValue) (first second : List ℕ) → fed g (first ++ second) ≡ fed (fed g first) second }
{}

/// The bytes of a row add its codes; bytes with which no row ends add none.
pub fn rows_count_when_they_are_whole()
    ensures whole { (f : SampleFormatValue) (rows : ℕ) (codes row : List ℕ) → 0 < length row →
        length row ≡ row_bytes f →
        fed (record { format = f; rows = rows; codes = codes; part = [] }) row
        ≡ record { format = f; rows = rows + 1; codes = codes ++ row_codes f row; part = [] } }
    ensures part { (f : SampleFormatValue) (rows : ℕ) (codes part bytes : List ℕ) →
        length part + length bytes < row_bytes f →
        fed (record { format = f; rows = rows; codes = codes; part = part }) bytes
        ≡ record { format = f; rows = rows; codes = codes; part = part ++ bytes } }
{}

/// The byte that is kept of a mask's sample is the code of that sample.
pub fn mask_bytes_are_codes()
    ensures { (width height sample : ℕ) (ones : Bool) → sample < 2 →
        sample_code (mask_format width height ones) 0 sample ≡ mask_byte ones sample }
{}
