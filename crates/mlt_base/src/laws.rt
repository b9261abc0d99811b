//! What the limits are, and what the readers of numbers and pictures accept, in the words of the grammars:
//! laws that hold of every text.
//!
//! Each function here does nothing; its contract is the law, over the definitions that the readers
//! meet exactly.

ghost use Rattle.std.specs.Prelude.{◌≡◌, ◌≢◌, ℕ, ◌+◌, ◌*◌, ◌/◌, ◌^◌, ◌<◌, ◌≤◌, ◌⊎◌, ◌↔◌, ℤ, FitsSigned, List, [], ◌∷◌, ◌++◌, length, map, codes, Some, None, Ok, Err};
ghost use Rattle.std.specs.Int.{w64};
ghost use Rattle.std.specs.List.{All};
ghost use Rattle.mlt_base.specs.declared.fault.NumFault.TheVariants.{Empty, BadDigit, TooLarge, Order, Smooth};
ghost use Rattle.mlt_base.specs.declared.fault.PpmFault.TheVariants as picture;
ghost use Rattle.mlt_base.specs.declared.limits.TheConstants.{MOST_BYTES, MOST_CORNER, MOST_DEPTH, MOST_ENTRIES, MOST_FRAMES, MOST_HUNDREDTHS, MOST_OF_RATE, MOST_OFFSET, MOST_OPACITY, MOST_PIXELS, MOST_RATE, MOST_SAMPLE, MOST_TRACKS, MOST_WEIGHT, MOST_WORDS, MOST_WRITTEN, OWN_LENGTH};
ghost use Rattle.mlt_base.specs.Whole.{whole};
ghost use Rattle.mlt_base.specs.Decimal.{decimal};
ghost use Rattle.mlt_base.specs.Time.{Form, frames_of, time};
ghost use Rattle.mlt_base.specs.declared.animation.Key.{Key};
ghost use Rattle.mlt_base.specs.Animation.{Rises, between, value_at, animation};
ghost use Rattle.mlt_base.specs.declared.table.TheConstants.{DV_PAL, PROFILES};
ghost use Rattle.mlt_base.specs.Name.{name_of};
ghost use Rattle.mlt_base.specs.Profile.{Measures, measures, row_measures, profile};
ghost use Rattle.mlt_base.specs.Geometry.{Rectangle, geometry};
ghost use Rattle.mlt_base.specs.Still.{Picture};
ghost use Rattle.mlt_base.specs.Stop.{Texts, StopsAt, First};
ghost use Rattle.mlt_base.specs.Ppm.{IsP6, HasHeader, IsPpm, IsLarge, IsShort, IsFaulty, ppm};
ghost use Rattle.mlt_base.specs.Grammar.{IsWhole, IsDecimal, IsTime, IsNamed, IsProfile, IsWithin, IsGeometry, IsAnimation, AreHeld, HasEquals, IsBadAt, IsUnordered, IsSmooth, HasValue, HasLarge, HasOther};

/// The limits, each as a number.
pub fn limits()
    ensures words { MOST_WORDS ≡ 10000 }
    ensures entries { MOST_ENTRIES ≡ 100000 }
    ensures frames { MOST_FRAMES + 1 ≡ 2 ^ 31 }
    ensures tracks { MOST_TRACKS ≡ 256 }
    ensures depth { MOST_DEPTH ≡ 16 }
    ensures weight { MOST_WEIGHT ≡ 65536 }
    ensures written { MOST_WRITTEN ≡ 1000000 }
    ensures bytes { MOST_BYTES ≡ 2 ^ 31 }
    ensures pixels { MOST_PIXELS ≡ 4096 }
    ensures of_rate { MOST_OF_RATE ≡ 100000 }
    ensures rate { MOST_RATE ≡ 1000 }
    ensures offset { MOST_OFFSET ≡ 16384 }
    ensures hundredths { MOST_HUNDREDTHS ≡ 1000 }
    ensures corner { MOST_CORNER ≡ MOST_HUNDREDTHS * MOST_PIXELS / 100 }
    ensures opacity { MOST_OPACITY ≡ 100 }
    ensures sample { MOST_SAMPLE ≡ 65535 }
    ensures own_length { OWN_LENGTH ≡ 15000 }
{}

/// The profiles that have names: what each name means, in which order they are listed, and which is meant where none
/// is named.
pub fn profile_table()
    ensures pal { profile (codes "dv_pal") ≡ Some (measures 720 576 25 1) }
    ensures ntsc { profile (codes "dv_ntsc") ≡ Some (measures 720 480 30000 1001) }
    ensures rows_720 { profile (codes "atsc_720p_25") ≡ Some (measures 1280 720 25 1) }
    ensures rows_1080 { profile (codes "atsc_1080p_25") ≡ Some (measures 1920 1080 25 1) }
    ensures order { map (λ row. name_of row.name) PROFILES
        ≡ codes "dv_pal" ∷ codes "dv_ntsc" ∷ codes "atsc_720p_25" ∷ codes "atsc_1080p_25" ∷ [] }
    ensures unnamed { row_measures DV_PAL ≡ measures 720 576 25 1 }
{}

/// Exactly the whole numbers that fit are read, each as itself; the others are too large.
pub fn whole_numbers()
    ensures accepted { (text : List ℕ) (z : ℤ) → IsWhole text z → FitsSigned w64 z → whole text ≡ Ok z }
    ensures large { (text : List ℕ) (z : ℤ) → IsWhole text z → ¬ FitsSigned w64 z → whole text ≡ Err TooLarge }
    ensures only { (text : List ℕ) (z : ℤ) → whole text ≡ Ok z → IsWhole text z × FitsSigned w64 z }
{}

/// What each fault of a whole number says. A bad digit is the place where the text can't go on as a whole
/// number, or ends too soon; a text without a byte, and `-` alone, are empty instead.
pub fn whole_faults()
    ensures empty { (text : List ℕ) → whole text ≡ Err Empty ↔ ((text ≡ []) ⊎ (text ≡ 45 ∷ [])) }
    ensures bad_digit { (text : List ℕ) (at : ℕ) → length text < 2 ^ 32 → whole text ≡ Err (BadDigit at) ↔ ((text ≢ []) × (text ≢ 45 ∷ []) × StopsAt (Texts IsWhole) text at) }
    ensures too_large { (text : List ℕ) → whole text ≡ Err TooLarge → (z : ℤ) × IsWhole text z × ¬ FitsSigned w64 z }
{}

/// Exactly the decimal numbers below 65536 are read, each as its 65536ths, rounded down; the others
/// are too large.
pub fn decimals()
    ensures accepted { (text : List ℕ) (n : ℕ) → IsDecimal text n → n < 2 ^ 32 → decimal 0 text ≡ Ok n }
    ensures large { (text : List ℕ) (n : ℕ) → IsDecimal text n → 2 ^ 32 ≤ n → decimal 0 text ≡ Err TooLarge }
    ensures only { (text : List ℕ) (n : ℕ) → decimal 0 text ≡ Ok n → IsDecimal text n × (n < 2 ^ 32) }
{}

/// What each fault of a decimal number says. A bad digit is the place where the text can't go on as a
/// decimal number, or ends too soon, as `.` alone does behind its only byte.
pub fn decimal_faults()
    ensures empty { (text : List ℕ) → decimal 0 text ≡ Err Empty ↔ (text ≡ []) }
    ensures bad_digit { (text : List ℕ) (at : ℕ) → length text < 2 ^ 32 → decimal 0 text ≡ Err (BadDigit at) ↔ ((text ≢ []) × StopsAt (Texts IsDecimal) text at) }
    ensures too_large { (text : List ℕ) → decimal 0 text ≡ Err TooLarge → (n : ℕ) × IsDecimal text n × (2 ^ 32 ≤ n) }
{}

/// Exactly the times below frame 2^31 are read, each as the frame that its form means; the others are
/// too large.
pub fn times()
    ensures accepted { (num den : ℕ) (text : List ℕ) (form : Form) → IsTime text form → frames_of num den form < 2 ^ 31 → time num den text ≡ Ok (frames_of num den form) }
    ensures large { (num den : ℕ) (text : List ℕ) (form : Form) → IsTime text form → 2 ^ 31 ≤ frames_of num den form → time num den text ≡ Err TooLarge }
    ensures only { (num den : ℕ) (text : List ℕ) (n : ℕ) → time num den text ≡ Ok n → (form : Form) × IsTime text form × (n ≡ frames_of num den form) × (n < 2 ^ 31) }
{}

/// What each fault of a time says. A bad digit is the place where the text can't go on as a time, or ends
/// too soon.
pub fn time_faults()
    ensures empty { (num den : ℕ) (text : List ℕ) → time num den text ≡ Err Empty ↔ (text ≡ []) }
    ensures bad_digit { (num den : ℕ) (text : List ℕ) (at : ℕ) → length text < 2 ^ 32 → time num den text ≡ Err (BadDigit at) ↔ ((text ≢ []) × StopsAt (Texts IsTime) text at) }
    ensures too_large { (num den : ℕ) (text : List ℕ) → time num den text ≡ Err TooLarge → (form : Form) × IsTime text form × (2 ^ 31 ≤ frames_of num den form) }
{}

/// Exactly the names of the table and the spelled profiles within the limits are read, each as its
/// measures.
pub fn profiles()
    ensures named { All (λ row. profile (name_of row.name) ≡ Some (row_measures row)) PROFILES }
    ensures spelled { (text : List ℕ) (m : Measures) → IsProfile text m → IsWithin m → profile text ≡ Some m }
    ensures only { (text : List ℕ) (m : Measures) → profile text ≡ Some m → IsNamed text m ⊎ (IsProfile text m × IsWithin m) }
{}

/// Exactly the geometries are read, each as its place in a profile of this width and height.
pub fn geometries()
    ensures accepted { (width height : ℕ) (text : List ℕ) (p : Rectangle) → IsGeometry width height text p → geometry width height text ≡ Some p }
    ensures only { (width height : ℕ) (text : List ℕ) (p : Rectangle) → geometry width height text ≡ Some p → IsGeometry width height text p }
{}

/// Exactly the animations are read whose keys rise and whose values are below 65536, each as its keys.
pub fn animations()
    ensures accepted { (text : List ℕ) (keys : List Key) → IsAnimation text keys → Rises None keys → AreHeld keys → animation text ≡ Ok keys }
    ensures only { (text : List ℕ) (keys : List Key) → animation text ≡ Ok keys → IsAnimation text keys × Rises None keys × AreHeld keys }
{}

/// What each fault of an animation says. A text without `=` has the faults of its one value. In a text of
/// keys the first part that isn't read is told: its frame or its value is too large, its mark is `~=`, its
/// frame isn't behind the one before, or it has no value. Else a bad digit is the place where the text can't
/// go on as keys, or ends too soon; where `|` stands there without its `=`, it is the place of the `|`.
pub fn animation_faults()
    ensures empty { (text : List ℕ) → animation text ≡ Err Empty ↔ ((text ≡ []) ⊎ HasValue (λ value. value ≡ []) text) }
    ensures bad_value { (text : List ℕ) (at : ℕ) → length text < 2 ^ 32 → ¬ HasEquals text → animation text ≡ Err (BadDigit at) ↔ ((text ≢ []) × StopsAt (Texts IsDecimal) text at) }
    ensures bad_digit { (text : List ℕ) (at : ℕ) → length text < 2 ^ 32 → HasEquals text → animation text ≡ Err (BadDigit at) ↔ (IsBadAt text at × ¬ HasOther text) }
    ensures too_large { (text : List ℕ) → animation text ≡ Err TooLarge ↔ (((n : ℕ) × IsDecimal text n × (2 ^ 32 ≤ n)) ⊎ (HasEquals text × HasLarge text)) }
    ensures order { (text : List ℕ) (at : ℕ) → length text < 2 ^ 32 → animation text ≡ Err (Order at) ↔ IsUnordered text at }
    ensures smooth { (text : List ℕ) (at : ℕ) → length text < 2 ^ 32 → animation text ≡ Err (Smooth at) ↔ IsSmooth text at }
{}

/// Before its first key an animation has the first value, from its last key on the last one, and from
/// one key to the next what lies between their values.
pub fn animation_values()
    ensures before { (a : Key) (keys : List Key) (p : ℕ) → p < a.frame → value_at (a ∷ keys) p ≡ a.value.0 }
    ensures between { (front : List Key) (a b : Key) (back : List Key) (p : ℕ) → Rises None (front ++ a ∷ b ∷ back) → a.frame ≤ p → p < b.frame → value_at (front ++ a ∷ b ∷ back) p ≡ between a b p }
    ensures behind { (front : List Key) (a : Key) (p : ℕ) → Rises None (front ++ a ∷ []) → a.frame ≤ p → value_at (front ++ a ∷ []) p ≡ a.value.0 }
{}

/// Exactly the files of the grammar of PPM are read, each as its picture.
pub fn pictures()
    ensures accepted { (text : List ℕ) (p : Picture) → IsPpm text p → ppm text ≡ Ok p }
    ensures only { (text : List ℕ) (p : Picture) → ppm text ≡ Ok p → IsPpm text p }
{}

/// What each fault of a file of a picture says. A bad header is told by the first place, in byte order, where it can't
/// go on, or where a number begins that isn't allowed; of the former a file has at most one.
pub fn picture_faults()
    ensures not_p6 { (text : List ℕ) → ppm text ≡ Err picture.NotP6 ↔ ¬ IsP6 text }
    ensures bad_header { (text : List ℕ) (at : ℕ) → ppm text ≡ Err (picture.BadHeader at) ↔ (IsP6 text × First (IsFaulty text) at) }
    ensures one_stop { (text : List ℕ) (a b : ℕ) → StopsAt HasHeader text a → StopsAt HasHeader text b → a ≡ b }
    ensures too_large { (text : List ℕ) → ppm text ≡ Err picture.TooLarge ↔ IsLarge text }
    ensures short { (text : List ℕ) (have need : ℕ) → ppm text ≡ Err (picture.Short have need) ↔ IsShort text have need }
{}
