// A call by its numbers: `callee` is the first word of its callee.
ghost use Rattle.std.specs.Prelude.{◌≡◌, ◌&&◌, eqb};
ghost use Rattle.spec.specs.Grammar.{header};

use tables::details::Class;
use tables::exprs::is_const;

// A type call: the type function called with one positional argument and no other, no names, args or kwargs.
pub fn as_type(callee: u32, arguments: u32, names: u32) -> bool
    ensures { result ≡ eqb callee (header 1 4) && (eqb arguments 1 && eqb names 0) }
{
    is_const(callee, Class::TypeFn) & ((arguments == 1) & (names == 0))
}
