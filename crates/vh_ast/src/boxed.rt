ghost use Rattle.std.specs.Prelude.{◌≡◌, is_some};
ghost use Rattle.std.specs.Option.{option_copied};

use sqlite_items::Boxed;

/// What stands in a box, where there is one.
pub fn held<T>(boxed: &Option<Boxed<T>>) -> Option<&T>
    ensures value { option_copied result ≡ boxed.now }
    ensures variant { is_some result ≡ is_some boxed.now }
{
    match boxed {
        None => None,
        Some(boxed) => Some(boxed.get()),
    }
}
