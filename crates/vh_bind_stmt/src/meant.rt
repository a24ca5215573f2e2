ghost use Rattle.std.specs.Prelude.{◌≡◌};
ghost use Rattle.std.specs.Option.{option_and_then};
ghost use Rattle.vh_bind_scope.specs.LookUp.{object_meant};

use vh_base::ObjId;
use vh_bind_scope::Meaning;

/// The object that a name stands for, if it stands for one.
pub fn object_meant(meaning: Meaning) -> Option<ObjId>
    ensures { result ≡ object_meant meaning }
{
    match meaning {
        Meaning::Object { id, .. } => Some(id),
        Meaning::Result { .. } | Meaning::Genvar | Meaning::Blocks | Meaning::Gate => None,
    }
}

/// The same where the name may stand for nothing.
pub fn object_of(meaning: Option<Meaning>) -> Option<ObjId>
    ensures { result ≡ option_and_then object_meant meaning }
{
    match meaning {
        None => None,
        Some(meaning) => object_meant(meaning),
    }
}
