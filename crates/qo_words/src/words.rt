//! Which order the words after the program's name are.

ghost use Rattle.std.specs.Prelude.{◌≡◌, ◌≤◌, true, IfOk, IfSome, OnErr, map, option_map, option_and_then, string_bytes};
ghost use Rattle.qo_record.specs.Reading.{after_front, with_digit};
ghost use Rattle.qo_words.specs.Views.{form_order, order_of};
ghost use Rattle.qo_words.specs.Words.{alone, both, connections_in, demo_of, digits_on, has_values, is_value, number, option_at, options, order, serve_of, value_then};

use crate::values::{demo_values, serve_values};
use qo_record::with_digit;
use std::alloc::{AllocError, Global};

/// The most connections that `serve` takes.
const CONNECTIONS_MAX: u64 = 1_000;

/// The most steps that `demo` takes.
const STEPS_MAX: u64 = 1_000_000;

/// What the program is asked to do.
#[derive(Drop)]
pub enum Order {
    /// Replays a recorded stream.
    Replay,
    /// Rebuilds a board of its description.
    Rebuild,
    /// Serves so many connections on the socket of this path.
    Serve {
        /// The path of the socket.
        path: String,
        /// How many connections, 1 to 1,000.
        connections: u32,
    },
    /// Runs a demo.
    Demo {
        /// What the record is made of.
        seed: u64,
        /// How many steps it has, at most 1,000,000.
        steps: u32,
    },
    /// Tells the types.
    Types,
    /// Replays a recorded stream, and tells what listeners heard.
    Watch,
}

/// An order by its word, with the values of its options as they are written.
#[derive(Clone, Copy)]
pub(crate) enum Form<'a> {
    /// `replay`.
    Replay,
    /// `rebuild`.
    Rebuild,
    /// `serve` with `--socket` and `--connections`.
    Serve { path: &'a str, connections: &'a str },
    /// `demo` with `--seed` and `--steps`.
    Demo { seed: &'a str, steps: &'a str },
    /// `types`.
    Types,
    /// `watch`.
    Watch,
}

/// The text after a front.
fn after_front<'a>(front: &str, text: &'a str) -> Option<&'a str>
    ensures { option_map (λ x. x.now) result ≡ after_front front.now text.now }
{
    text.strip_prefix(front)
}

/// Further digits, to the end.
fn digits_on(last: u64, first: u64, bytes: &[u8]) -> Option<u64>
    requires { first ≤ last }
    ensures number { result ≡ digits_on last first bytes.now }
    ensures bound { IfSome result (λ n. n ≤ last) }
{
    let mut number = first;
    let mut left = bytes;
    while let [byte, rest @ ..] = left {
        number = with_digit(last, number, *byte)?;
        left = rest;
    }
    Some(number)
}

/// A number up to the last, in digits without a leading zero.
fn number(last: u64, text: &str) -> Option<u64>
    ensures number { result ≡ number last text.now }
    ensures bound { IfSome result (λ n. n ≤ last) }
{
    let (byte, rest) = text.as_bytes().split_first()?;
    if *byte == b'0' {
        return if rest.is_empty() { Some(0) } else { None };
    }
    digits_on(last, with_digit(last, 0, *byte)?, rest)
}

/// Whether a text may be a value: it is not empty and begins with no `-`.
fn is_value(text: &str) -> bool
    ensures { result ≡ is_value text.now }
{
    match text.as_bytes() {
        [] => false,
        [byte, ..] => *byte != b'-',
    }
}

/// A text as a value, and the words after it.
fn value_then<'a>(text: &'a str, words: &'a [String]) -> Option<(&'a str, &'a [String])>
    ensures { option_map (λ x. (x.0.now, map string_bytes x.1.now)) result ≡ value_then text.now (map string_bytes words.now) }
{
    if is_value(text) {
        Some((text, words))
    } else {
        None
    }
}

/// The value of an option at the front of the words, and the words after it.
fn option_at<'a>(name: &str, words: &'a [String]) -> Option<(&'a str, &'a [String])>
    ensures { option_map (λ x. (x.0.now, map string_bytes x.1.now)) result ≡ option_at name.now (map string_bytes words.now) }
{
    let (word, rest) = words.split_first()?;
    if let [next, after_next @ ..] = rest {
        if word.as_str() == name {
            return value_then(next.as_str(), after_next);
        }
    }
    value_then(after_front("=", after_front(name, word.as_str())?)?, rest)
}

/// The values of two options, in this order, with nothing after them.
fn both<'a>(first: &str, second: &str, words: &'a [String]) -> Option<(&'a str, &'a str)>
    ensures { option_map (λ x. (x.0.now, x.1.now)) result ≡ both first.now second.now (map string_bytes words.now) }
{
    let (one, words) = option_at(first, words)?;
    let (other, words) = option_at(second, words)?;
    if words.is_empty() {
        Some((one, other))
    } else {
        None
    }
}

/// The values of two options, in either order.
fn options<'a>(first: &str, second: &str, words: &'a [String]) -> Option<(&'a str, &'a str)>
    ensures { option_map (λ x. (x.0.now, x.1.now)) result ≡ options first.now second.now (map string_bytes words.now) }
{
    if let Some(values) = both(first, second, words) {
        return Some(values);
    }
    let (other, one) = both(second, first, words)?;
    Some((one, other))
}

/// How many connections a text says that `serve` takes.
fn connections_in(text: &str) -> Option<u32>
    ensures { result ≡ connections_in text.now }
{
    let connections = number(CONNECTIONS_MAX, text)? as u32;
    if connections == 0 {
        return None;
    }
    Some(connections)
}

/// How many steps a text says that a demo has.
fn steps_in(text: &str) -> Option<u32>
    ensures { result ≡ number 1000000 text.now }
{
    let steps = number(STEPS_MAX, text)? as u32;
    Some(steps)
}

/// The form of one word and no more.
fn alone<'a>(only: Form<'a>, words: &[String]) -> Option<Form<'a>>
    ensures { option_and_then form_order result ≡ alone (form_order only.entry) (map string_bytes words.now) }
{
    if words.is_empty() { Some(only) } else { None }
}

/// The form of the words, whatever the numbers are that are written as values.
fn form_in(words: &[String]) -> Option<Form<'_>>
    ensures { option_and_then form_order result ≡ order (map string_bytes words.now) }
{
    let (word, rest) = words.split_first()?;
    match word.as_str() {
        "replay" => alone(Form::Replay, rest),
        "rebuild" => alone(Form::Rebuild, rest),
        "types" => alone(Form::Types, rest),
        "watch" => alone(Form::Watch, rest),
        "serve" => {
            let (path, connections) = options("--socket", "--connections", rest)?;
            Some(Form::Serve { path, connections })
        }
        "demo" => {
            let (seed, steps) = options("--seed", "--steps", rest)?;
            Some(Form::Demo { seed, steps })
        }
        _ => None,
    }
}

/// `serve` with its values, where they are such; `clap` reads them then. The error is want of memory.
fn serve_order(alloc: Global, path: &str, connections: &str) -> Result<Option<Order>, AllocError>
    ensures ok { IfOk result (λ o. option_map order_of o ≡ serve_of path.now connections.now) }
    ensures err { OnErr result (has_values (serve_of path.now connections.now) ≡ true) }
{
    if connections_in(connections).is_none() {
        return Ok(None);
    }
    let values = serve_values(alloc, path, connections)?;
    match connections_in(values.second.as_str()) {
        Some(connections) => Ok(Some(Order::Serve {
            path: values.first,
            connections,
        })),
        None => Ok(None),
    }
}

/// `demo` with its values, where they are such; `clap` reads them then. The error is want of memory.
fn demo_order(alloc: Global, seed: &str, steps: &str) -> Result<Option<Order>, AllocError>
    ensures ok { IfOk result (λ o. option_map order_of o ≡ demo_of seed.now steps.now) }
    ensures err { OnErr result (has_values (demo_of seed.now steps.now) ≡ true) }
{
    if number(u64::MAX, seed).is_none() || steps_in(steps).is_none() {
        return Ok(None);
    }
    let values = demo_values(alloc, seed, steps)?;
    match (
        number(u64::MAX, values.first.as_str()),
        steps_in(values.second.as_str()),
    ) {
        (Some(seed), Some(steps)) => Ok(Some(Order::Demo { seed, steps })),
        _ => Ok(None),
    }
}

/// The order that the words are.
///
/// They are `replay`, `rebuild`, `types`, `watch`, `serve` with `--socket` and `--connections`, or `demo` with `--seed` and
/// `--steps`. The two options stand in either order, each once; a value is the next word or follows `=`, is not empty
/// and begins with no `-`. A number is in digits without a leading zero. The error is want of memory, which comes only
/// where the words are an order that has values.
pub fn order_in(alloc: Global, words: &[String]) -> Result<Option<Order>, AllocError>
    ensures ok { IfOk result (λ o. option_map order_of o ≡ order (map string_bytes words.now)) }
    ensures err { OnErr result (has_values (order (map string_bytes words.now)) ≡ true) }
{
    match form_in(words) {
        Some(Form::Replay) => Ok(Some(Order::Replay)),
        Some(Form::Rebuild) => Ok(Some(Order::Rebuild)),
        Some(Form::Types) => Ok(Some(Order::Types)),
        Some(Form::Watch) => Ok(Some(Order::Watch)),
        Some(Form::Serve { path, connections }) => serve_order(alloc, path, connections),
        Some(Form::Demo { seed, steps }) => demo_order(alloc, seed, steps),
        None => Ok(None),
    }
}
