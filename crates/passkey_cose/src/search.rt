//! Finding a member by its label.
ghost use Rattle.std.specs.Prelude.{◌≡◌, option_map};
ghost use Rattle.std.specs.List.{find};

/// The value of the first pair with this label; `None` if there is none.
pub(super) fn find<'a, L: PartialEq, V>(label: &L, pairs: &'a [(L, V)]) -> Option<&'a V>
    ensures { option_map (λ v. v.now) result ≡ option_map (λ p. p.1) (find (λ p. L.eq label.now p.0) pairs.now) }
{
    for (other, value) in pairs {
        if label == other {
            return Some(value);
        }
    }
    None
}
