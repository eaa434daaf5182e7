// Objects in lists.
ghost use Rattle.std.specs.Prelude.{◌≡◌};
ghost use Rattle.nt_semantics.specs.Same.{is_one_of, is_same_object};

use nt_design::Object;

pub(crate) fn is_same_object(a: Object, b: Object) -> bool
    ensures { result ≡ is_same_object a b }
{
    match (a, b) {
        (Object::Net(a), Object::Net(b)) => a == b,
        (Object::Var(a), Object::Var(b)) => a == b,
        (Object::Net(_), Object::Var(_)) => false,
        (Object::Var(_), Object::Net(_)) => false,
    }
}

/// Whether an object is one of these. It takes no memory.
pub fn is_one_of(objects: &[Object], object: Object) -> bool
    ensures { result ≡ is_one_of objects.now object }
{
    objects.iter().any(|other| is_same_object(object, *other))
}
