//! The names of the types of objects.
ghost use Rattle.std.specs.Prelude.{◌≡◌, codes};
ghost use Rattle.ps_store.specs.TypeNames.{type_of};

use crate::obj::Obj;
use crate::symbol::Symbol;
use crate::symbols::Symbols;
use press_fault::Mem;
use std::alloc::Global;

/// The names of the types of objects. They are kept from the start, so that `type` takes no
/// memory.
#[derive(Drop)]
pub(crate) struct TypeNames {
    integer: Symbol,
    real: Symbol,
    boolean: Symbol,
    name: Symbol,
    string: Symbol,
    array: Symbol,
    dict: Symbol,
    operator: Symbol,
    mark: Symbol,
    null: Symbol,
    file: Symbol,
    ghost integer_named: { integer ≡ codes "integertype" },
    ghost real_named: { real ≡ codes "realtype" },
    ghost boolean_named: { boolean ≡ codes "booleantype" },
    ghost name_named: { name ≡ codes "nametype" },
    ghost string_named: { string ≡ codes "stringtype" },
    ghost array_named: { array ≡ codes "arraytype" },
    ghost dict_named: { dict ≡ codes "dicttype" },
    ghost operator_named: { operator ≡ codes "operatortype" },
    ghost mark_named: { mark ≡ codes "marktype" },
    ghost null_named: { null ≡ codes "nulltype" },
    ghost file_named: { file ≡ codes "filetype" },
}

impl TypeNames {
    /// Keeps the names of all types.
    pub(crate) fn new(alloc: Global, symbols: &mut Symbols) -> Mem<TypeNames> {
        Ok(TypeNames {
            integer: symbols.keep_text(alloc, "integertype")?,
            real: symbols.keep_text(alloc, "realtype")?,
            boolean: symbols.keep_text(alloc, "booleantype")?,
            name: symbols.keep_text(alloc, "nametype")?,
            string: symbols.keep_text(alloc, "stringtype")?,
            array: symbols.keep_text(alloc, "arraytype")?,
            dict: symbols.keep_text(alloc, "dicttype")?,
            operator: symbols.keep_text(alloc, "operatortype")?,
            mark: symbols.keep_text(alloc, "marktype")?,
            null: symbols.keep_text(alloc, "nulltype")?,
            file: symbols.keep_text(alloc, "filetype")?,
        })
    }

    /// The name of an object's type.
    pub(crate) fn of(&self, o: &Obj) -> Symbol
        ensures { result ≡ type_of o.now }
    {
        match o {
            Obj::Int(_) => self.integer.again(),
            Obj::Real(_) => self.real.again(),
            Obj::Bool(_) => self.boolean.again(),
            Obj::Name(_, _) => self.name.again(),
            Obj::Text(_) => self.string.again(),
            Obj::Array(_, _) => self.array.again(),
            Obj::Dict(_) => self.dict.again(),
            Obj::Oper(_) => self.operator.again(),
            Obj::Mark => self.mark.again(),
            Obj::Null => self.null.again(),
            Obj::File => self.file.again(),
        }
    }
}
