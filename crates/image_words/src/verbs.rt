//! What a command does, by its first words.
ghost use Rattle.std.specs.Prelude.{◌≡◌, ℕ, Bool, List, ◌++◌, ◌∷◌, map, IfSome, IfNone};
ghost use Rattle.std.specs.List.{AllByRecursion};
ghost use Rattle.std.specs.Option.{IsSomeAnd};
ghost use Rattle.image_words.specs.Words.{HasJournal, ImageWord, IsImageWord, IsLimit, run_option, spelled, texts};
ghost use Rattle.image_words.specs.Args.{Asks, Begins, fits};

use crate::numbers::number_of;
use crate::volumes::split_container;
use crate::words::behind;
use new_container::NewContainer;

/// The fewest entries that a journal is limited to. The number is this project's own.
const MIN_LIMIT: u32 = 4;

/// The most, and the limit of a journal where none is given. The number is this project's own.
const MAX_LIMIT: u32 = 1_048_576;

/// What a command does with its images: it gives the verdict on all of them, or on each and those before it, with `run`
/// that of a start without disks that lack; runs a script over them with a journal of at most so many entries; examines
/// the one that it names; or makes a container over them.
#[derive(Clone, Copy, Debug, PartialEq, Eq)]
pub enum Verb {
    Assemble { run: bool },
    Incremental { run: bool },
    Replay { limit: u32 },
    Examine,
    Create(NewContainer),
}

impl Verb {
    /// Whether so many images fit what is done with them.
    pub fn fits(self, images: usize) -> bool
        ensures { result ≡ fits self images }
    {
        match self {
            Verb::Assemble { .. } | Verb::Incremental { .. } | Verb::Replay { .. } => true,
            Verb::Examine => images == 1,
            Verb::Create(made) => made.fits(images),
        }
    }
}

/// Whether `--run` is given, and the words behind it.
fn split_run(words: &[String]) -> (bool, &[String])
    ensures given { texts words.now ≡ run_option result.0 ++ texts result.1.now }
    ensures only { (run : Bool) (images : List ImageWord) → texts words.now ≡ run_option run ++ map spelled images
        → (result.0 ≡ run) × (texts result.1.now ≡ map spelled images) }
{
    match behind("--run", words) {
        Some(named) => (true, named),
        None => (false, words),
    }
}

/// The limit that a word gives, if it is in the range of limits.
fn limit_of(word: &str) -> Option<u32>
    ensures some { IfSome result (λ limit. IsLimit limit word.now) }
    ensures none { IfNone result ((limit : ℕ) → IsLimit limit word.now → ⊥) }
{
    let limit = u32::try_from(number_of(word)?).ok()?;
    if MIN_LIMIT <= limit && limit <= MAX_LIMIT {
        Some(limit)
    } else {
        None
    }
}

/// The limit that the first word gives, and the words behind it.
fn split_limit(words: &[String]) -> Option<(u32, &[String])>
    ensures some { IfSome result (λ found. (word : List ℕ) × IsLimit found.0 word
        × (texts words.now ≡ word ∷ texts found.1.now)) }
    ensures only { (limit : ℕ) (word : List ℕ) (rest : List (List ℕ)) → IsLimit limit word
        → texts words.now ≡ word ∷ rest
        → IsSomeAnd result (λ found. (found.0 ≡ limit) × (texts found.1.now ≡ rest)) }
{
    let (word, rest) = words.split_first()?;
    let limit = limit_of(word.as_str())?;
    Some((limit, rest))
}

/// The limit of a journal that options give, and the words behind them.
fn split_journal(words: &[String]) -> Option<(u32, &[String])>
    ensures some { IfSome result (λ found. (option : List (List ℕ)) × HasJournal found.0 option
        × (texts words.now ≡ option ++ texts found.1.now)) }
    ensures only { (limit : ℕ) (option : List (List ℕ)) (images : List ImageWord) → HasJournal limit option
        → AllByRecursion IsImageWord images → texts words.now ≡ option ++ map spelled images
        → IsSomeAnd result (λ found. (found.0 ≡ limit) × (texts found.1.now ≡ map spelled images)) }
{
    match behind("--journal", words) {
        Some(given) => split_limit(given),
        None => Some((MAX_LIMIT, words)),
    }
}

/// What a command does, and the words that name its images.
pub fn split_verb(words: &[String]) -> Option<(Verb, &[String])>
    ensures some { IfSome result (λ found. Begins (texts words.now) found.0 (texts found.1.now)) }
    ensures only { (verb : Verb) (images : List ImageWord) → Asks (texts words.now) verb images
        → IsSomeAnd result (λ found. (found.0 ≡ verb) × (texts found.1.now ≡ map spelled images)) }
{
    if let Some(given) = behind("assemble", words) {
        let (run, named) = split_run(given);
        return Some((Verb::Assemble { run }, named));
    }
    if let Some(given) = behind("incremental", words) {
        let (run, named) = split_run(given);
        return Some((Verb::Incremental { run }, named));
    }
    if let Some(named) = behind("examine", words) {
        return Some((Verb::Examine, named));
    }
    if let Some(given) = behind("create", words) {
        let (made, named) = split_container(given)?;
        return Some((Verb::Create(made), named));
    }
    let given = behind("replay", words)?;
    let (limit, named) = split_journal(given)?;
    Some((Verb::Replay { limit }, named))
}
