// How far a row is to be believed, as an f32, and as a percentage for people.
ghost use Rattle.std.specs.Prelude.{◌≡◌};
ghost use Rattle.sheet.specs.Confidence.{share, freed_share, rebuilt_share, percent_of};

// The share of the columns that the row's values suit.
#[tactic(auto, unfolding(crate::specs::Confidence::share))]
pub fn suited_share(suited: u16, columns: u16) -> f32
    ensures { result ≡ share suited columns }
{
    suited as f32 / columns as f32
}

// A row in freed space may be partly overwritten, so it counts for less.
#[tactic(auto, unfolding(crate::specs::Confidence::freed_share))]
pub fn freed(confidence: f32) -> f32
    ensures { result ≡ freed_share confidence }
{
    confidence * 0.6
}

// A rebuilt row had a part of it guessed, so it counts for less.
#[tactic(auto, unfolding(crate::specs::Confidence::rebuilt_share))]
pub fn rebuilt(confidence: f32) -> f32
    ensures { result ≡ rebuilt_share confidence }
{
    confidence * 0.9
}

// The whole part of a hundred times the confidence, read off the product's bits.
pub fn percent(confidence: f32) -> u64
    ensures { result ≡ percent_of confidence }
{
    let product = confidence * 100.0;
    // An infinity stops here: its bits are no digits.
    if product >= 255.0 {
        return 255;
    }
    // A NaN fails this test too, so its bits are never asked for.
    if product >= 1.0 {
        let bits = f32::to_bits(product) as u64;
        let exponent = bits / 0x80_0000;
        // The pattern leaves the first of the 24 digits out, which is always 1.
        let digits = bits % 0x80_0000 + 0x80_0000;
        // The product is digits * 2 ^ (exponent - 150), so the shift drops just its fraction.
        return digits >> (150 - exponent);
    }
    0
}
