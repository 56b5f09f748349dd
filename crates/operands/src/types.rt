// The type of a bare key, and of a key's field.
ghost use Rattle.std.specs.Prelude.{◌≡◌};
ghost use Rattle.paper.specs.Types.{bare_type, field_type};
ghost use Rattle.paper.specs.Code.{field_of};
ghost use Rattle.keys.specs.Says.{keys_in};
ghost use Rattle.values.specs.Typed.{typing_meant};

use keys::KeyRecord;
use values::fields::field_type;
use values::types::Type;

// The type of key k, where the list has it.
pub fn bare_type(list: &[u8], k: usize) -> Option<Type>
    ensures { typing_meant result ≡ bare_type (keys_in list.now) k }
{
    if list.len() / KeyRecord::SIZE <= k {
        return None;
    }
    let key = KeyRecord::read(list, k);
    Some(Type::Of(key.kind, key.width))
}

// The type of a field of key k, by the field's number in document 01, where the list has the key and the key the field.
pub fn field_type_at(list: &[u8], field: u8, k: usize) -> Option<Type>
    ensures { typing_meant result ≡ field_type (keys_in list.now) (field_of field) k }
{
    if list.len() / KeyRecord::SIZE <= k {
        return None;
    }
    let key = KeyRecord::read(list, k);
    field_type(key.kind, key.width, field)
}
