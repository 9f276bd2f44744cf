//! The values of an order's two options, as `clap` reads them. Which words are an order is decided before: each
//! option is written here with its value in one word, so that `clap` takes any value.

ghost use Rattle.std.specs.Prelude.{◌≡◌, ℕ, List, [], ◌∷◌, ◌++◌, Some, IfErr, IfOk, codes, map, string_bytes};
ghost use Rattle.clap.specs.Words.{first_value, found_of, kind_of};

use clap::error::ErrorKind;
use clap::{Arg, ArgMatches, Command, Error};
use std::alloc::{AllocError, Global};

/// What `clap` finds in the words of `serve`. It fails for want of memory alone.
fn serve_matches<'a>(alloc: Global, words: &'a [&'a str]) -> Result<ArgMatches<'a>, Error>
    ensures ok { (path count : List ℕ) → map (λ s. s.now) words.now ≡ codes "serve" ∷ (codes "--socket=" ++ path) ∷ (codes "--connections=" ++ count) ∷ [] → IfOk result (λ m. (first_value (found_of m) (codes "socket") ≡ Some path) × (first_value (found_of m) (codes "connections") ≡ Some count)) }
    ensures err { (path count : List ℕ) → map (λ s. s.now) words.now ≡ codes "serve" ∷ (codes "--socket=" ++ path) ∷ (codes "--connections=" ++ count) ∷ [] → IfErr result (λ e. kind_of e ≡ ErrorKind.OutOfMemory) }
{
    let socket = Arg::new(alloc, "socket").long("socket");
    let connections = Arg::new(alloc, "connections").long("connections");
    let serve = Command::new(alloc, "serve").arg(socket)?.arg(connections)?;
    serve.try_get_matches_from(words)
}

/// What `clap` finds in the words of `demo`. It fails for want of memory alone.
fn demo_matches<'a>(alloc: Global, words: &'a [&'a str]) -> Result<ArgMatches<'a>, Error>
    ensures ok { (seed steps : List ℕ) → map (λ s. s.now) words.now ≡ codes "demo" ∷ (codes "--seed=" ++ seed) ∷ (codes "--steps=" ++ steps) ∷ [] → IfOk result (λ m. (first_value (found_of m) (codes "seed") ≡ Some seed) × (first_value (found_of m) (codes "steps") ≡ Some steps)) }
    ensures err { (seed steps : List ℕ) → map (λ s. s.now) words.now ≡ codes "demo" ∷ (codes "--seed=" ++ seed) ∷ (codes "--steps=" ++ steps) ∷ [] → IfErr result (λ e. kind_of e ≡ ErrorKind.OutOfMemory) }
{
    let seed = Arg::new(alloc, "seed").long("seed");
    let steps = Arg::new(alloc, "steps").long("steps");
    let demo = Command::new(alloc, "demo").arg(seed)?.arg(steps)?;
    demo.try_get_matches_from(words)
}

/// The values of two options.
#[derive(Drop)]
pub(crate) struct Values {
    /// The value of the first one.
    pub(crate) first: String,
    /// The value of the second one.
    pub(crate) second: String,
}

/// The path and the number of connections of `serve`, as they are written. The error is want of memory.
pub(crate) fn serve_values(
    alloc: Global,
    path: &str,
    connections: &str,
) -> Result<Values, AllocError>
    ensures { IfOk result (λ v. (string_bytes v.first ≡ path.now) × (string_bytes v.second ≡ connections.now)) }
{
    let socket = format!(in alloc; "--socket={path}")?;
    let count = format!(in alloc; "--connections={connections}")?;
    let words = ["serve", socket.as_str(), count.as_str()];
    let Ok(matches) = serve_matches(alloc, words.as_slice()) else {
        return Err(AllocError);
    };
    Ok(Values {
        first: String::from_str(alloc, matches.get_str("socket").unwrap())?,
        second: String::from_str(alloc, matches.get_str("connections").unwrap())?,
    })
}

/// The seed and the number of steps of `demo`, as they are written. The error is want of memory.
pub(crate) fn demo_values(alloc: Global, seed: &str, steps: &str) -> Result<Values, AllocError>
    ensures { IfOk result (λ v. (string_bytes v.first ≡ seed.now) × (string_bytes v.second ≡ steps.now)) }
{
    let seed_word = format!(in alloc; "--seed={seed}")?;
    let steps_word = format!(in alloc; "--steps={steps}")?;
    let words = ["demo", seed_word.as_str(), steps_word.as_str()];
    let Ok(matches) = demo_matches(alloc, words.as_slice()) else {
        return Err(AllocError);
    };
    Ok(Values {
        first: String::from_str(alloc, matches.get_str("seed").unwrap())?,
        second: String::from_str(alloc, matches.get_str("steps").unwrap())?,
    })
}
