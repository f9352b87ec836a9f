//! Numbers among the words.
ghost use Rattle.std.specs.Prelude.{◌≡◌, ◌≢◌, ℕ, ◌<◌, ◌≤◌, IfNone, IfSome, decimal};

use itoa::Buffer;

/// The number from 1 to `most` that a word spells: in decimal digits, with no sign and no zero before it.
pub fn number(word: &str, most: u32) -> Option<u32>
    ensures refused { IfNone result ((n : ℕ) → 0 < n → n ≤ most → word.now ≢ decimal n) }
    ensures spelled { IfSome result (λ n. (0 < n) × (n ≤ most) × (word.now ≡ decimal n)) }
{
    let number = word.parse::<u32>().ok()?;
    if number < 1 {
        return None;
    }
    if number > most {
        return None;
    }
    let mut buffer = Buffer::new();
    if buffer.format(number).as_bytes() == word.as_bytes() {
        Some(number)
    } else {
        None
    }
}
