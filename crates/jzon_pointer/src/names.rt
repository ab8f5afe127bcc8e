//! The test of keys for typed reading and redaction.

ghost use Rattle.std.specs.Prelude.{◌≡◌, map};
ghost use Rattle.jzon_pointer.specs.Names.{is_among};

/// Whether a key is one of the names.
pub fn is_among(names: &[&str], key: &str) -> bool
    ensures { result ≡ is_among (map (λ n. n.now) names.now) key.now }
{
    names.iter().any(|name| *name == key)
}
