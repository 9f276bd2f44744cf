//! The parts of a path.

ghost use Rattle.std.specs.Prelude.{◌≡◌, ◌<◌, ◌==◌, ◌∷◌, IfSome, length};
ghost use Rattle.std.specs.List.{slice_split};
ghost use Rattle.std.specs.Option.{option_copied};
ghost use Rattle.qo_model.specs.Paths.{is_absolute};
ghost use Rattle.qo_paths.specs.Parts.{parts_after};

/// The first part of a path, up to its first `/`, and what follows that.
pub fn first_part(path: &str) -> (&str, Option<&str>)
    ensures parts { slice_split (λ c. c == 47) path.now ≡ result.0.now ∷ parts_after (option_copied result.1) }
    ensures shorter { IfSome result.1 (λ rest. length rest.now < length path.now) }
{
    match path.split_once('/') {
        Some((part, rest)) => (part, Some(rest)),
        None => (path, None),
    }
}

/// Whether a path begins with `/`.
pub fn is_absolute(path: &str) -> bool
    ensures { result ≡ is_absolute path.now }
{
    match path.as_bytes().split_first() {
        Some((first, _)) => *first == b'/',
        None => false,
    }
}
