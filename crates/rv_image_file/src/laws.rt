// What is true of every image and every text, as the contracts of functions that do nothing.

ghost use Rattle.std.specs.Prelude.{◌≡◌, ℕ, List};
ghost use Rattle.base.specs.declared.place.Place.{Place};
ghost use Rattle.rv_machine.specs.declared.image.Image.{Image};
ghost use Rattle.rv_image_file.specs.declared.faults.BadImage.{BadImage};
ghost use Rattle.rv_image_file.specs.ImageText.{image_text, IsVersion, IsInRange, ImageText};
ghost use Rattle.rv_image_file.specs.BadText.{BadText};

/// Bytes are the text of at most one image with its sites, in one version, and of none where they
/// are bad, which they are for one reason.
pub fn law_one_reading()
    ensures same { (bytes : List ℕ) (v w : ℕ) (image other : Image) (sites others : List Place) →
        ImageText bytes v image sites → ImageText bytes w other others →
        (v ≡ w) × (image.entry ≡ other.entry) × (image.words ≡ other.words) × (sites ≡ others) }
    ensures apart { (bytes : List ℕ) (version : ℕ) (image : Image) (sites : List Place) (reason : BadImage) →
        ImageText bytes version image sites → BadText bytes reason → ⊥ }
    ensures one_reason { (bytes : List ℕ) (r s : BadImage) → BadText bytes r → BadText bytes s → r ≡ s }
{}

/// The text of an image and its sites is read as these, and as no others.
pub fn law_round_trip()
    ensures text { (version : ℕ) (image : Image) (sites : List Place) →
        IsVersion version sites → IsInRange image sites →
        ImageText (image_text version image sites) version image sites }
    ensures same { (version w : ℕ) (image other : Image) (sites others : List Place) →
        IsVersion version sites → IsInRange image sites →
        ImageText (image_text version image sites) w other others →
        (w ≡ version) × (other.entry ≡ image.entry) × (other.words ≡ image.words) × (others ≡ sites) }
{}
