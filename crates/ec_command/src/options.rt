//! The numbers among the words: the bounds of a search, and the steps of a sample.
ghost use Rattle.std.specs.Prelude.{◌≡◌, ◌≤◌, IfSome, MatchOption, None, map};
ghost use Rattle.std.specs.String.{string_bytes};
ghost use Rattle.ec_engine.specs.Solve.{AreBounds};
ghost use Rattle.ec_command.specs.Words.{bounds_of, number_of, usual_bounds, IsSteps};

use ec_edge::read_number;
use ec_engine::Bounds;

const MOST_MODELS: u64 = 10_000;

const MOST_CONFLICTS: u64 = 2_000_000_000;

const DEFAULT_MODELS: u64 = 1_000;

const DEFAULT_CONFLICTS: u64 = 200_000;

/// The number of steps that a sample has at most.
const MOST_STEPS: u64 = 40;

/// The bounds of a search whose words set none.
pub fn default_bounds() -> Bounds
    ensures is { result ≡ usual_bounds }
    ensures within { AreBounds result }
{
    Bounds {
        models: DEFAULT_MODELS,
        conflicts: DEFAULT_CONFLICTS,
    }
}

/// The number from 1 to the most whose decimal text a word is, without a sign or a leading zero.
fn read_within(word: &str, most: u64) -> Option<u64>
    ensures is { result ≡ number_of most word.now }
    ensures within { IfSome result (λ n. (1 ≤ n) × (n ≤ most)) }
{
    let number = read_number(word.as_bytes())?;
    if 1 <= number && number <= most {
        Some(number)
    } else {
        None
    }
}

/// The number of steps of a sample.
pub fn read_steps(word: &str) -> Option<u32>
    ensures is { result ≡ number_of 40 word.now }
    ensures within { IfSome result (λ n. IsSteps n) }
{
    let steps = read_within(word, MOST_STEPS)?;
    Some(steps as u32)
}

/// The number of an option, unless it was read before.
fn read_once(known: Option<u64>, word: &str, most: u64) -> Option<u64>
    ensures is { MatchOption known (result ≡ number_of most word.now) (λ _. result ≡ None) }
    ensures within { IfSome result (λ n. (1 ≤ n) × (n ≤ most)) }
{
    match known {
        Some(_) => None,
        None => read_within(word, most),
    }
}

/// The bounds that options give: `--models N` and `--conflicts N`, each at most once, in any order.
pub fn read_bounds(options: &[String]) -> Option<Bounds>
    ensures is { result ≡ bounds_of (map string_bytes options.now) }
    ensures within { IfSome result (λ bounds. AreBounds bounds) }
{
    let mut models = None;
    let mut conflicts = None;
    let mut rest = options;
    'options: while let [name, number, more @ ..] = rest {
        match name.as_str() {
            "--models" => models = Some(read_once(models, number, MOST_MODELS)?),
            "--conflicts" => conflicts = Some(read_once(conflicts, number, MOST_CONFLICTS)?),
            _ => return None,
        }
        rest = more;
    }
    if !rest.is_empty() {
        return None;
    }
    Some(Bounds {
        models: models.unwrap_or(DEFAULT_MODELS),
        conflicts: conflicts.unwrap_or(DEFAULT_CONFLICTS),
    })
}
