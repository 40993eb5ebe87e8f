//! The words of the volumes that a command makes.
ghost use Rattle.std.specs.Prelude.{◌≡◌, ◌^◌, ◌<◌, ◌≤◌, ℕ, true, List, ◌∷◌, ◌++◌, Option, Some, map, IfSome};
ghost use Rattle.std.specs.Fmt.{decimal};
ghost use Rattle.std.specs.Option.{IsSomeAnd};
ghost use Rattle.units.specs.declared.volume.Level.{Level};
ghost use Rattle.new_container.specs.declared.container.NewContainer.{NewContainer};
ghost use Rattle.new_container.specs.declared.volume.NewVolume.{NewVolume};
ghost use Rattle.new_container.specs.Fits.{is_in_range};
ghost use Rattle.image_words.specs.Words.{HasFamily, ImageWord, family_of, level_word, second_words, spelled, texts, volume_words};
ghost use Rattle.image_words.specs.Args.{AreInRange, Makes};

use crate::numbers::{family_of, number_of};
use crate::words::behind;
use new_container::{NewContainer, NewVolume};
use units::Level;

/// The level that a word names.
fn level_of(word: &str) -> Option<Level>
    ensures some { IfSome result (λ level. word.now ≡ level_word level) }
    ensures only { (level : Level) → word.now ≡ level_word level → result ≡ Some level }
{
    match word {
        "1" => Some(Level::One),
        "5" => Some(Level::Five),
        "10" => Some(Level::Ten),
        _ => None,
    }
}

/// The level that the first word names, and the words behind it.
fn split_level(words: &[String]) -> Option<(Level, &[String])>
    ensures some { IfSome result (λ found. texts words.now ≡ level_word found.0 ∷ texts found.1.now) }
    ensures only { (level : Level) (rest : List (List ℕ)) → texts words.now ≡ level_word level ∷ rest
        → IsSomeAnd result (λ found. (found.0 ≡ level) × (texts found.1.now ≡ rest)) }
{
    let (word, rest) = words.split_first()?;
    let level = level_of(word.as_str())?;
    Some((level, rest))
}

/// The number that the first word gives, and the words behind it.
fn split_number(words: &[String]) -> Option<(u64, &[String])>
    ensures some { IfSome result (λ found. texts words.now ≡ decimal found.0 ∷ texts found.1.now) }
    ensures only { (n : ℕ) (rest : List (List ℕ)) → 1 ≤ n → n < 2 ^ 64 → texts words.now ≡ decimal n ∷ rest
        → IsSomeAnd result (λ found. (found.0 ≡ n) × (texts found.1.now ≡ rest)) }
{
    let (word, rest) = words.split_first()?;
    let number = number_of(word.as_str())?;
    Some((number, rest))
}

/// The strip that the first word gives, and the words behind it.
fn split_strip(words: &[String]) -> Option<(u16, &[String])>
    ensures some { IfSome result (λ found. texts words.now ≡ decimal found.0 ∷ texts found.1.now) }
    ensures only { (n : ℕ) (rest : List (List ℕ)) → 1 ≤ n → n < 2 ^ 16 → texts words.now ≡ decimal n ∷ rest
        → IsSomeAnd result (λ found. (found.0 ≡ n) × (texts found.1.now ≡ rest)) }
{
    let (number, rest) = split_number(words)?;
    let strip = u16::try_from(number).ok()?;
    Some((strip, rest))
}

/// The volume that the first three words ask for, and the words behind them.
fn split_volume(words: &[String]) -> Option<(NewVolume, &[String])>
    ensures some { IfSome result (λ found. texts words.now ≡ volume_words found.0 ++ texts found.1.now) }
    ensures only { (v : NewVolume) (rest : List (List ℕ)) → is_in_range v ≡ true
        → texts words.now ≡ volume_words v ++ rest
        → IsSomeAnd result (λ found. (found.0 ≡ v) × (texts found.1.now ≡ rest)) }
{
    let (level, numbers) = split_level(words)?;
    let (strip, sized) = split_strip(numbers)?;
    let (size, rest) = split_number(sized)?;
    Some((NewVolume { level, strip, size }, rest))
}

/// The second volume, if the words begin with one, and the words behind it: a word that names an image names no level.
fn split_second(words: &[String]) -> (Option<NewVolume>, &[String])
    ensures found { texts words.now ≡ second_words result.0 ++ texts result.1.now }
    ensures only { (second : Option NewVolume) (images : List ImageWord) → IfSome second (λ v. is_in_range v ≡ true)
        → texts words.now ≡ second_words second ++ map spelled images
        → (result.0 ≡ second) × (texts result.1.now ≡ map spelled images) }
{
    match split_volume(words) {
        Some((volume, named)) => (Some(volume), named),
        None => (None, words),
    }
}

/// The number of a family that the first word gives, and the words behind it.
fn split_number_of_family(words: &[String]) -> Option<(u32, &[String])>
    ensures some { IfSome result (λ found. (word : List ℕ) × (family_of word ≡ Some found.0)
        × (texts words.now ≡ word ∷ texts found.1.now)) }
    ensures only { (family : ℕ) (word : List ℕ) (rest : List (List ℕ)) → family_of word ≡ Some family
        → texts words.now ≡ word ∷ rest
        → IsSomeAnd result (λ found. (found.0 ≡ family) × (texts found.1.now ≡ rest)) }
{
    let (word, rest) = words.split_first()?;
    let family = family_of(word.as_str())?;
    Some((family, rest))
}

/// The number of a family that options give, and the words behind them.
fn split_family(words: &[String]) -> Option<(Option<u32>, &[String])>
    ensures some { IfSome result (λ found. (option : List (List ℕ)) × HasFamily found.0 option
        × (texts words.now ≡ option ++ texts found.1.now)) }
    ensures only { (family : Option ℕ) (option : List (List ℕ)) (level : Level) (rest : List (List ℕ))
        → HasFamily family option → texts words.now ≡ option ++ level_word level ∷ rest
        → IsSomeAnd result (λ found. (found.0 ≡ family) × (texts found.1.now ≡ level_word level ∷ rest)) }
{
    match behind("--family", words) {
        Some(given) => {
            let (family, rest) = split_number_of_family(given)?;
            Some((Some(family), rest))
        }
        None => Some((None, words)),
    }
}

/// The container that words ask for, and the words behind theirs.
pub fn split_container(words: &[String]) -> Option<(NewContainer, &[String])>
    ensures some { IfSome result (λ found. Makes (texts words.now) found.0 (texts found.1.now)) }
    ensures only { (made : NewContainer) (images : List ImageWord) → AreInRange made
        → Makes (texts words.now) made (map spelled images)
        → IsSomeAnd result (λ found. (found.0 ≡ made) × (texts found.1.now ≡ map spelled images)) }
{
    let (family, volumes) = split_family(words)?;
    let (first, behind_first) = split_volume(volumes)?;
    let (second, named) = split_second(behind_first);
    Some((
        NewContainer {
            family,
            first,
            second,
        },
        named,
    ))
}
